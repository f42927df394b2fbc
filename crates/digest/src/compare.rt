// A comparison of two sums whose time does not tell where they differ.
ghost use Rattle.std.specs.Prelude.{◌≡◌, true, fold, zip, bit_or, bit_xor};

// What two sums differ by, over all their bytes.
fn difference(a: &[u8; 16], b: &[u8; 16]) -> u8
    ensures { result ≡ fold (λ d p. bit_or d (bit_xor p.0 p.1)) 0 (zip a.now b.now) }
{
    a.iter().zip(b).fold(
        0,
        |differ, (a, b)|
            ensures { result ≡ bit_or differ (bit_xor a.entry.now b.entry.now) }
        { differ | (*a ^ *b) },
    )
}

/// Whether two sums are equal. All sixteen bytes are compared, whatever the first of them are.
#[tactic(auto, using(crate::proofs::Sums::same_if_none))]
pub fn same_sum(a: &[u8; 16], b: &[u8; 16]) -> bool
    ensures same { result ≡ true → a.now ≡ b.now }
    ensures found { a.now ≡ b.now → result ≡ true }
{
    difference(a, b) == 0
}
