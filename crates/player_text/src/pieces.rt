//! How blocks are joined of others.

ghost use Rattle.std.specs.Prelude.{◌≡◌, ◌++◌, IfOk, OnOk};
ghost use Rattle.std.specs.List.{flat_map};

use base::{Items, NoMemory};
use scopes::Line;
use std::alloc::Global;

/// A block in pieces: `put` names a block, and scopes, conditions and leaves stand around them as in `text!`.
macro_rules! pieces {
    (@ [$($out:tt)*]) => { &[$($out)*] };
    (@ [$($out:tt)*] @end { $($rest:tt)* }) => { $crate::pieces::pieces!(@ [$($out)* &[Line::End],] $($rest)*) };
    (@ [$($out:tt)*] scope $name:ident { $($body:tt)* } $($rest:tt)*) => {
        $crate::pieces::pieces!(@ [$($out)* &[Line::Scope($name)],] $($body)* @end { $($rest)* })
    };
    (@ [$($out:tt)*] when $condition:ident { $($body:tt)* } $($rest:tt)*) => {
        $crate::pieces::pieces!(@ [$($out)* &[Line::When($condition)],] $($body)* @end { $($rest)* })
    };
    (@ [$($out:tt)*] leave $name:ident; $($rest:tt)*) => {
        $crate::pieces::pieces!(@ [$($out)* &[Line::Leave($name)],] $($rest)*)
    };
    (@ [$($out:tt)*] put $block:ident; $($rest:tt)*) => {
        $crate::pieces::pieces!(@ [$($out)* $block,] $($rest)*)
    };
    ($($lines:tt)*) => { $crate::pieces::pieces!(@ [] $($lines)*) };
}

/// A block in steps: `put` names a block, `join` one in pieces, and scopes stand around them.
macro_rules! steps {
    (@ [$($out:tt)*]) => { &[$($out)*] };
    (@ [$($out:tt)*] @end { $($rest:tt)* }) => { $crate::pieces::steps!(@ [$($out)* &[&[Line::End]],] $($rest)*) };
    (@ [$($out:tt)*] scope $name:ident { $($body:tt)* } $($rest:tt)*) => {
        $crate::pieces::steps!(@ [$($out)* &[&[Line::Scope($name)]],] $($body)* @end { $($rest)* })
    };
    (@ [$($out:tt)*] put $block:ident; $($rest:tt)*) => {
        $crate::pieces::steps!(@ [$($out)* &[$block],] $($rest)*)
    };
    (@ [$($out:tt)*] join $pieces:ident; $($rest:tt)*) => {
        $crate::pieces::steps!(@ [$($out)* $pieces,] $($rest)*)
    };
    ($($lines:tt)*) => { $crate::pieces::steps!(@ [] $($lines)*) };
}

pub(crate) use pieces;
pub(crate) use steps;

/// Adds the lines of a block in pieces.
///
/// # Errors
///
/// Out of memory.
fn add(lines: &mut Items<Line>, pieces: &[&[Line]]) -> Result<(), NoMemory>
    ensures { OnOk result (lines.new ≡ lines.old ++ flat_map (λ piece. piece.now) pieces.now) }
{
    for piece in pieces {
        lines.extend(piece)?;
    }
    Ok(())
}

/// The lines of a block in steps.
///
/// # Errors
///
/// Out of memory.
pub(crate) fn joined(alloc: Global, steps: &[&[&[Line]]]) -> Result<Items<Line>, NoMemory>
    ensures { IfOk result (λ lines. lines ≡ flat_map (λ step. flat_map (λ piece. piece.now) step.now) steps.now) }
{
    let mut lines = Items::new(alloc);
    for step in steps {
        add(&mut lines, step)?;
    }
    Ok(lines)
}
