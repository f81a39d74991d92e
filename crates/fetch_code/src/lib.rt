//! The code that fetches a row: where the gateoff timer says so, a voice reads the next entry of its packed pattern,
//! and walks its orderlist where the pattern is through.
//!
//! Its one contract is that of `claims::fetch_block_fetches`: in any memory that holds a voice that is playing and is
//! in its song, the code leaves what the rule says, and the voice in its song, and leaves out the pulse step where an
//! option that is kept does.
//!
//! It stands on `player_text` for the code, on `scopes` for what code means, on `song_facts` for the rows and
//! instruments that ask for lines of their own, on `packed_form` for what packed patterns spell, on `player_memory` for
//! where a voice is in its song, and on `player_desk`, `entry_code` and `walk_code` for the tools of proof: a voice's
//! desk, an entry that is read there, and the walk along an orderlist.
//!
//! `worked_blocks` has what its definitions take and refuse.
#![tactic(auto)]

pub mod claims;
