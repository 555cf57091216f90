//! Many open templates, replayed.
use super::commands::Command::ReadAll;
use super::commands::steps_of;
use super::told::{Way, assert_text, replay_told};
use listing::listing::PLAIN;
use std::alloc::{AllocError, Global};
use std::test::Fail;

/// How many templates are opened.
const TEMPLATES: u32 = 1000;

/// Writes a template that holds templates, each in the one before, and their tokens: a back quote, text that holds no
/// character, and `${`, in turn.
fn write_templates(text: &mut String, tokens: &mut String) -> Result<(), AllocError> {
    let mut flag = "lf";
    for number in 0..TEMPLATES {
        let (low, high) = (3 * number, 3 * number + 1);
        text.push_str("`${")?;
        write!(
            tokens,
            " {low}..{high} {flag} BackQuote {high}..{high} - Template"
        )?;
        write!(tokens, " {high}..{} - DollarLBrace", high + 2)?;
        flag = "-";
    }
    Ok(())
}

/// What a template comes to that is read to its end.
fn told(alloc: Global, text: &str) -> Result<String, AllocError> {
    let steps = steps_of(alloc, &[ReadAll], text.len())?;
    replay_told(alloc, PLAIN, text, &steps, Way::WithoutAnswers)
}

#[test]
fn a_thousand_templates_are_replayed(rt: HostRuntime) -> Result<(), Fail> {
    let mut text = String::new(rt.alloc());
    let mut wanted = String::new(rt.alloc());
    wanted.push_str("0 again; ended; kept 3000:")?;
    write_templates(&mut text, &mut wanted)?;
    let found = told(rt.alloc(), text.as_str())?;
    assert_text(&rt, "templates", found.as_str(), wanted.as_str());
    Ok(())
}
