// A draft and a name, cloned and copied.
use crate::{Draft, Name, read};
use std::test::Fail;

const TEXT: &[u8] = b"life 900\nmost 1000\n0 ferry 10.1.0.0/16 198.51.100.1\n";

#[test]
fn clones() -> Result<(), Fail> {
    let Ok(draft) = read(TEXT) else {
        return Err(Fail::new("no draft"));
    };
    let again = draft.clone()?;
    let (Some(name), Some(same)) = (draft.find_name(0), again.find_name(0)) else {
        return Err(Fail::new("no name"));
    };
    if name.clone()? != *same {
        return Err(Fail::new("another name"));
    }
    Ok(())
}

// Takes a draft whole.
fn first_name(draft: Draft) -> Name {
    draft.name(0)
}

#[test]
fn copies() -> Result<(), Fail> {
    let Ok(draft) = read(TEXT) else {
        return Err(Fail::new("no draft"));
    };
    let name = first_name(draft);
    let same = name;
    if name != first_name(draft) || same.text() != b"ferry".as_slice() {
        return Err(Fail::new("another name"));
    }
    if draft.name(1) != Name::default() {
        return Err(Fail::new("a name of no gate"));
    }
    Ok(())
}
