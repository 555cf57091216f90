//! Handing comments over to a store, which may fail to allocate for one of them.
ghost use Rattle.std.specs.Prelude.{◌≡◌, ◌<◌, ◌++◌, ◌∷◌, [], map, reverse, OnOk, OnErr, IfErr, vec_len};
ghost use Rattle.ecma_comments.specs.HandOver.{added_of, HandsFirst};

use crate::comments_buffer::{BufferedComment, BufferedCommentKind};
use ecma_span::Comments;
use std::alloc::AllocError;

/// Gives a comment to a store.
///
/// # Errors
///
/// The comment itself where the store can't allocate for it.
fn give<'a, C: Comments<'a>>(
    buffered: BufferedComment<'a>,
    to: &mut C,
) -> Result<(), BufferedComment<'a>>
    ensures ok { OnOk result (C.added to.new ≡ C.added to.old ++ added_of buffered.entry ∷ []) }
    ensures err { OnErr result (C.added to.new ≡ C.added to.old) }
    ensures back { IfErr result (λ c. c ≡ buffered.entry) }
{
    let BufferedComment { kind, pos, comment } = buffered;
    let given = match kind {
        BufferedCommentKind::Leading => to.add_leading(pos, comment),
        BufferedCommentKind::Trailing => to.add_trailing(pos, comment),
    };
    given.map_err(|comment| BufferedComment { kind, pos, comment })
}

/// Gives comments to a store, the last of the list first, so that no other is moved. None is kept then.
///
/// # Errors
///
/// `AllocError` where the store can't allocate for one. Those behind it were handed over, and it and those
/// before it are kept.
pub(crate) fn give_from_last<'a, C: Comments<'a>>(
    comments: &mut Vec<BufferedComment<'a>>,
    to: &mut C,
) -> Result<(), AllocError>
    ensures ok { OnOk result (C.added to.new ≡ C.added to.old ++ map added_of (reverse comments.old.items)) }
    ensures none { OnOk result (comments.new.items ≡ []) }
    ensures err { OnErr result (HandsFirst (C.added to.old) (C.added to.new) (reverse comments.old.items) (reverse comments.new.items)) }
    ensures refused { OnErr result (0 < vec_len comments.new) }
{
    'comments: while let Some(comment) = comments.pop() {
        if let Err(refused) = give(comment, to) {
            // It does not allocate: the room that the comment left is still there.
            comments.push_reserved(refused);
            return Err(AllocError);
        }
    }
    Ok(())
}
