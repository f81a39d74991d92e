//! Whether lines are in good form.

ghost use Rattle.std.specs.Prelude.{◌≡◌};
ghost use Rattle.scopes.specs.Trees.{opened};
ghost use Rattle.scope_lines.specs.Readings.{are_whole};
ghost use Rattle.block_cases.specs.Sides.{are_body, led_all};
ghost use Rattle.block_cases.specs.Stacks.{stack_of};

use scopes::Line;

/// What is open behind lines, the innermost first.
#[derive(Clone, Copy)]
enum Open<'a> {
    /// Nothing: lines are not in good form.
    Nothing,
    /// Lines.
    Body(&'a Open<'a>),
    /// The side of a choice behind its `or`.
    Other(&'a Open<'a>),
}

#[tactic(auto, using(crate::proofs::Leading::led_all_last, crate::proofs::Leading::led_all_nothing))]
/// Whether lines alone are open in front of these, where this is open behind them.
fn are_led(lines: &[Line], behind: Open<'_>) -> bool
    ensures { result ≡ are_body (led_all lines.now (stack_of behind.entry)) }
{
    let Some((line, before)) = lines.split_last() else {
        return matches!(behind, Open::Body(Open::Nothing));
    };
    match (line, behind) {
        (Line::End, Open::Body(_) | Open::Other(_)) => are_led(before, Open::Body(&behind)),
        (Line::Or, Open::Body(outer)) => are_led(before, Open::Body(&Open::Other(outer))),
        (Line::Scope(_) | Line::Loop(_) | Line::When(_), Open::Body(Open::Body(outer))) => {
            are_led(before, Open::Body(outer))
        }
        (Line::Choose(_), Open::Body(Open::Other(Open::Body(outer)))) => {
            are_led(before, Open::Body(outer))
        }
        (
            Line::Do(_)
            | Line::With(_, _)
            | Line::Leave(_)
            | Line::LeaveIf(_, _)
            | Line::Again
            | Line::AgainIf(_)
            | Line::Never,
            Open::Body(_),
        ) => are_led(before, behind),
        _ => false,
    }
}

/// Whether each of the lines has its place, and nothing stays open.
#[tactic(auto, using(crate::proofs::Leading::whole_is_body))]
pub fn are_whole(lines: &[Line]) -> bool
    ensures { result ≡ are_whole (opened lines.now) }
{
    are_led(lines, Open::Body(&Open::Nothing))
}
