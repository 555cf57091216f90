//! Laws of tracks.
ghost use Rattle.ecma_role_tracks.specs.Rank.{RanksFall, TokensAreReadOut};
ghost use Rattle.ecma_role_tracks.specs.Track.{TracksGoOn};

/// Each time that a token is read again, that is in a state of lower rank; so it is read out, and nothing of it is left.
pub fn tokens_are_read_out()
    ensures falls { RanksFall }
    ensures out { TokensAreReadOut }
{}

/// The track of tokens, one after the other, is the track of the first of them gone on with the others.
pub fn tracks_go_on()
    ensures { TracksGoOn }
{}
