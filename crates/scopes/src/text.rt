//! How blocks are written.

/// The lines of a block: instructions with their operands, and what is open in braces.
#[macro_export]
macro_rules! text {
    (@ [$($out:tt)*]) => { &[$($out)*] };
    (@ [$($out:tt)*] @or { $($rest:tt)* }) => { $crate::text!(@ [$($out)* $crate::Line::Or,] $($rest)*) };
    (@ [$($out:tt)*] @end { $($rest:tt)* }) => { $crate::text!(@ [$($out)* $crate::Line::End,] $($rest)*) };
    (@ [$($out:tt)*] scope $name:ident { $($body:tt)* } $($rest:tt)*) => {
        $crate::text!(@ [$($out)* $crate::Line::Scope($name),] $($body)* @end { $($rest)* })
    };
    (@ [$($out:tt)*] turns $count:literal { $($body:tt)* } $($rest:tt)*) => {
        $crate::text!(@ [$($out)* $crate::Line::Loop($count),] $($body)* @end { $($rest)* })
    };
    (@ [$($out:tt)*] turns $count:ident { $($body:tt)* } $($rest:tt)*) => {
        $crate::text!(@ [$($out)* $crate::Line::Loop($count),] $($body)* @end { $($rest)* })
    };
    (@ [$($out:tt)*] when $condition:ident { $($body:tt)* } $($rest:tt)*) => {
        $crate::text!(@ [$($out)* $crate::Line::When($condition),] $($body)* @end { $($rest)* })
    };
    (@ [$($out:tt)*] choose $condition:ident { $($this:tt)* } or { $($other:tt)* } $($rest:tt)*) => {
        $crate::text!(@ [$($out)* $crate::Line::Choose($condition),] $($this)* @or { $($other)* @end { $($rest)* } })
    };
    (@ [$($out:tt)*] leave $name:ident; $($rest:tt)*) => {
        $crate::text!(@ [$($out)* $crate::Line::Leave($name),] $($rest)*)
    };
    (@ [$($out:tt)*] leave $name:ident on $flag:ident; $($rest:tt)*) => {
        $crate::text!(@ [$($out)* $crate::Line::LeaveIf($name, $crate::Test::On($crate::Flag::$flag)),] $($rest)*)
    };
    (@ [$($out:tt)*] leave $name:ident off $flag:ident; $($rest:tt)*) => {
        $crate::text!(@ [$($out)* $crate::Line::LeaveIf($name, $crate::Test::Off($crate::Flag::$flag)),] $($rest)*)
    };
    (@ [$($out:tt)*] jump $name:ident on $flag:ident; $($rest:tt)*) => {
        $crate::text!(@ [$($out)*
            $crate::Line::Scope($crate::OVER),
            $crate::Line::LeaveIf($crate::OVER, $crate::Test::Off($crate::Flag::$flag)),
            $crate::Line::Leave($name),
            $crate::Line::End,
        ] $($rest)*)
    };
    (@ [$($out:tt)*] jump $name:ident off $flag:ident; $($rest:tt)*) => {
        $crate::text!(@ [$($out)*
            $crate::Line::Scope($crate::OVER),
            $crate::Line::LeaveIf($crate::OVER, $crate::Test::On($crate::Flag::$flag)),
            $crate::Line::Leave($name),
            $crate::Line::End,
        ] $($rest)*)
    };
    (@ [$($out:tt)*] again; $($rest:tt)*) => { $crate::text!(@ [$($out)* $crate::Line::Again,] $($rest)*) };
    (@ [$($out:tt)*] again on $flag:ident; $($rest:tt)*) => {
        $crate::text!(@ [$($out)* $crate::Line::AgainIf($crate::Test::On($crate::Flag::$flag)),] $($rest)*)
    };
    (@ [$($out:tt)*] again off $flag:ident; $($rest:tt)*) => {
        $crate::text!(@ [$($out)* $crate::Line::AgainIf($crate::Test::Off($crate::Flag::$flag)),] $($rest)*)
    };
    (@ [$($out:tt)*] never; $($rest:tt)*) => { $crate::text!(@ [$($out)* $crate::Line::Never,] $($rest)*) };
    (@ [$($out:tt)*] $name:ident; $($rest:tt)*) => {
        $crate::text!(@ [$($out)* $crate::Line::Do($crate::Mnemonic::$name),] $($rest)*)
    };
    (@ [$($out:tt)*] $name:ident Pointed; $($rest:tt)*) => {
        $crate::text!(@ [$($out)* $crate::Line::With($crate::Mnemonic::$name, $crate::Operand::Pointed),] $($rest)*)
    };
    (@ [$($out:tt)*] $name:ident $kind:ident Low; $($rest:tt)*) => {
        $crate::text!(@ [$($out)* $crate::Line::With(
            $crate::Mnemonic::$name,
            $crate::Operand::$kind($crate::Half::Low),
        ),] $($rest)*)
    };
    (@ [$($out:tt)*] $name:ident $kind:ident High; $($rest:tt)*) => {
        $crate::text!(@ [$($out)* $crate::Line::With(
            $crate::Mnemonic::$name,
            $crate::Operand::$kind($crate::Half::High),
        ),] $($rest)*)
    };
    (@ [$($out:tt)*] $name:ident $kind:ident $of:tt; $($rest:tt)*) => {
        $crate::text!(@ [$($out)* $crate::Line::With($crate::Mnemonic::$name, $crate::Operand::$kind($of)),] $($rest)*)
    };
    ($($lines:tt)*) => { $crate::text!(@ [] $($lines)*) };
}
