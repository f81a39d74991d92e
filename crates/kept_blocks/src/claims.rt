//! Facts about the definitions, each the contract of a function that does nothing.

ghost use Rattle.play_model.specs.declared.options.Options.{Options};
ghost use Rattle.scopes.specs.Desk.{Layout};
ghost use Rattle.kept_blocks.specs.KeptBlocks.{SetsKeepTheirLines};
ghost use Rattle.kept_blocks.specs.WorkedLayouts.{LayoutsAreWorked};

/// A layout with this set keeps the lines of each feature and fact of the song and of no other fact, of each option as
/// it is, and of what these have in common, and sets the timer where there are several play calls in a picture.
pub fn sets_keep_their_lines()
    ensures { SetsKeepTheirLines }
{}

/// Which layouts keep a song's lines, and which don't, for each of these alone.
pub fn worked_layouts()
    ensures { (layout : Layout) → (options : Options) → LayoutsAreWorked layout options }
{}
