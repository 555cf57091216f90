//! Checkpoints that no lexer made.
use super::rows::assert_written;
use driver::command::Command::{self, Forge, Go, Read, Save, WriteAll, WriteRest};
use driver::command::Forgery::{
    self, Answered, At, Comments, Opened, Recorded, Reread, Start, Waiting,
};
use listing::listing::COLLECTING;
use std::test::Fail;

/// A comment, a number with an error, a slash and a name, of 11 bytes.
const TEXT: &str = "/*a*/1__2/b";

/// How many tokens are read, and what is changed of the checkpoint there, behind the number or behind the slash, which stands at
/// 9: the lexer doesn't go back, and is unchanged.
const REFUSED: &[(usize, Forgery)] = &[
    (2, At(12)),
    (2, At(4_294_967_295)),
    (1, Opened(10)),
    (2, Opened(11)),
    // The slash would be before the template.
    (2, Opened(10)),
    (2, Start(1)),
    (2, Reread(8)),
    (2, Reread(11)),
    (2, Reread(4_294_967_295)),
    (2, Answered(10)),
    (2, Answered(11)),
    (2, Recorded(2)),
    (2, Recorded(18_446_744_073_709_551_615)),
    (2, Waiting(1)),
    (2, Comments(2)),
];

#[test]
fn places_and_counts_are_looked_at(rt: HostRuntime) -> Result<(), Fail> {
    for (reads, forgery) in REFUSED {
        let commands = [Read(*reads), Save, Forge(*forgery), Go(0)];
        assert_written(&rt, rt.alloc(), (COLLECTING, TEXT), &commands, "stayed")?;
    }
    Ok(())
}

/// The lexer goes there from behind the slash: what it reads on, and what it has then.
const WENT: &[(Forgery, &str)] = &[
    (
        At(11),
        "went; recorded 5..6 A numeric separator is only allowed between two digits; leading 5 0..5 Block [a]",
    ),
    // No template is there, so that nothing ahead is read otherwise.
    (
        Opened(9),
        "back; 10..11 - name [b]; recorded 5..6 A numeric separator is only allowed between two digits; leading 5 0..5 Block [a]",
    ),
    // The number is read a second time behind the expression that the comment is then.
    (
        Reread(0),
        "went; 0..5 - Regex [*a*] []; 5..9 - Num [1__2] Decimal owned [12] Some(12); 9..10 - BinOp(Div); \
         10..11 - name [b]; recorded 5..6 A numeric separator is only allowed between two digits; \
         recorded 5..6 A numeric separator is only allowed between two digits; leading 5 0..5 Block [a]",
    ),
    (
        Recorded(0),
        "went; 10..11 - name [b]; leading 5 0..5 Block [a]",
    ),
    (
        Comments(0),
        "went; 10..11 - name [b]; recorded 5..6 A numeric separator is only allowed between two digits",
    ),
];

#[test]
fn a_checkpoint_that_fits_is_gone_to(rt: HostRuntime) -> Result<(), Fail> {
    for (forgery, expected) in WENT {
        let commands = [Read(2), Save, Forge(*forgery), Go(0), WriteAll, WriteRest];
        assert_written(&rt, rt.alloc(), (COLLECTING, TEXT), &commands, expected)?;
    }
    Ok(())
}
