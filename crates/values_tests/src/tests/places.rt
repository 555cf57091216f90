//! Places and spans.
use ecma_place::{BytePos, Span, Spanned};

fn lowest<S: Spanned>(at: &S) -> BytePos {
    at.span().lo
}

#[test]
fn spans_stand_between_places(rt: HostRuntime) {
    let span = Span::new(BytePos(3), BytePos(8));
    assert!(rt;
        span.lo == BytePos(3)
            && span.hi == BytePos(8)
            && span.span() == span
            && lowest(&span) == BytePos(3)
            && BytePos::DUMMY == BytePos(0)
            && BytePos(3) < BytePos(8)
    );
}
