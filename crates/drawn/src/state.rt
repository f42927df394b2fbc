// What is drawn, and what is at hand to be drawn. No contract stands here, so that specs can name these types.

/// What a hello or a reply takes: a tag, and sixteen bytes.
#[derive(Clone, Copy)]
pub struct Draw {
    pub tag: u64,
    pub bytes: [u8; 16],
}

/// Drawn bytes that are not used yet, the earliest first.
#[derive(Drop)]
pub struct Supply {
    pub(crate) bytes: Vec<u8>,
}
