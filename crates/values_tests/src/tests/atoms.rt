//! Texts that borrow or own.
use ecma_place::Atom;
use std::alloc::{AllocError, Global};
use std::hash::{DefaultHasher, Hash, Hasher};
use std::test::Fail;

const TEXTS: &[&str] = &["", "a", "été", "a€😀", "\\u{62}"];

/// Whether the atom is this text, and held so.
fn holds(atom: &Atom, text: &str, is_borrowed: bool) -> bool {
    atom.as_str() == text && atom.is_borrowed() == is_borrowed
}

/// Whether a copy of the atom is the same text, held in the same way.
fn copies(alloc: Global, atom: &Atom) -> Result<bool, AllocError> {
    let copy = atom.copy(alloc)?;
    Ok(copy == *atom && copy.is_borrowed() == atom.is_borrowed())
}

/// Whether an atom borrows this text and another owns it, and copies of them do so too.
fn borrows_and_owns(alloc: Global, text: &str) -> Result<bool, AllocError> {
    let borrowed = Atom::from(text);
    let owned = Atom::from(String::from_str(alloc, text)?);
    Ok(
        holds(&borrowed, text, true)
            && holds(&owned, text, false)
            && copies(alloc, &borrowed)?
            && copies(alloc, &owned)?,
    )
}

#[test]
fn borrow_and_own(rt: HostRuntime) -> Result<(), Fail> {
    for text in TEXTS {
        assert!(rt; borrows_and_owns(rt.alloc(), *text)?, "{text}");
    }
    Ok(())
}

fn hash_of(atom: &Atom) -> u64 {
    let mut hasher = DefaultHasher::new();
    atom.hash(&mut hasher);
    hasher.finish()
}

/// Whether an atom that borrows a text and one that owns another are equal, and hashed alike, exactly if that is said.
fn are_equal_if(alloc: Global, left: &str, right: &str, same: bool) -> Result<bool, AllocError> {
    let borrowed = Atom::from(left);
    let owned = Atom::from(String::from_str(alloc, right)?);
    Ok((borrowed == owned) == same && (hash_of(&borrowed) == hash_of(&owned)) == same)
}

#[test]
fn equal_where_the_bytes_are(rt: HostRuntime) -> Result<(), Fail> {
    for (i, left) in TEXTS.iter().enumerate() {
        for (j, right) in TEXTS.iter().enumerate() {
            assert!(rt;
                are_equal_if(rt.alloc(), *left, *right, i == j)?,
                "{left} and {right}"
            );
        }
    }
    Ok(())
}

/// Both, as they are and within a width, and their debug texts.
fn printed(alloc: Global, borrowed: &Atom, owned: &Atom) -> Result<String, AllocError> {
    format!(in alloc; "{borrowed}|{owned}|{owned:>3}|{owned:<2}|{borrowed:?} {owned:?}")
}

#[test]
fn prints_as_a_text_does(rt: HostRuntime) -> Result<(), Fail> {
    let owned = Atom::from(String::from_str(rt.alloc(), "€")?);
    let text = printed(rt.alloc(), &Atom::from("été \"a\"\n"), &owned)?;
    assert!(rt; text.as_str() == "été \"a\"\n|€|  €|€ |\"été \\\"a\\\"\\n\" \"€\"");
    Ok(())
}
