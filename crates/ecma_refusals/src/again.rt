//! Calls that are made again where they are refused.

/// What a call answers. Where memory is refused to it, it is made again, behind this line.
#[macro_export]
macro_rules! again {
    ($rt:expr, $line:literal, $call:expr) => {
        match $call {
            Ok(answer) => answer,
            Err(_) => {
                println!($rt; $line)?;
                $call?
            }
        }
    };
}
