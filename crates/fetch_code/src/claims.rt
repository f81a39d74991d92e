//! Facts about the code, each the contract of a function that does nothing.

ghost use Rattle.fetch_code.specs.FetchBlock.{FetchBlockFetches};

/// In any memory that holds a voice that is playing and is in its song, the code fetches its row in the frame where
/// that is due, and leaves the voice in its song. It comes to its end where the pulse step goes on, and leaves past
/// that where an option that is kept leaves it out.
pub fn fetch_block_fetches()
    ensures { FetchBlockFetches }
{}
