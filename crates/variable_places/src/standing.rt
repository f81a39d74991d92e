//! Which variables have a byte.

ghost use Rattle.std.specs.Prelude.{◌≡◌, ◌≤◌, length, map};
ghost use Rattle.scope_lines.specs.Readings.{holds_in};
ghost use Rattle.narrow_runs.specs.Named.{any_holds, stands_under};
ghost use Rattle.variable_places.specs.Places.{asked_in, standing, position_in};

use scope_lines::Conditions;

/// Whether any of these conditions holds.
fn any_holds(conditions: Conditions, asked: &[u8]) -> bool
    ensures { result ≡ any_holds (holds_in conditions.0) asked.now }
{
    for condition in asked {
        if conditions.hold(*condition) {
            return true;
        }
    }
    false
}

/// Whether something stands under any of these conditions.
fn stands_under(conditions: Conditions, asked: &[u8]) -> bool
    ensures { result ≡ stands_under (holds_in conditions.0) asked.now }
{
    asked.is_empty() || any_holds(conditions, asked)
}

/// Whether a label of a table has a byte; one that isn't in it counts as one that has.
pub(crate) fn is_standing(conditions: Conditions, rows: &[(u16, &[u8])], label: u16) -> bool
    ensures { result
        ≡ stands_under (holds_in conditions.0) (asked_in (map (λ row. (row.0, row.1.now)) rows.now) label) }
{
    for row in rows {
        if row.0 == label {
            return stands_under(conditions, row.1);
        }
    }
    true
}

/// How many labels of a table have a byte.
pub(crate) fn standing_count(conditions: Conditions, rows: &[(u16, &[u8])]) -> u8
    requires { length rows.now ≤ 34 }
    ensures count { result ≡ length (standing (holds_in conditions.0) (map (λ row. (row.0, row.1.now)) rows.now)) }
    ensures most { result ≤ length rows.now }
{
    let mut count = 0;
    for row in rows {
        if stands_under(conditions, row.1) {
            count += 1;
        }
    }
    count
}

/// How many labels of a table that have a byte stand in front of one.
pub(crate) fn position_in(conditions: Conditions, rows: &[(u16, &[u8])], label: u16) -> u8
    requires { length rows.now ≤ 34 }
    ensures position { result
        ≡ position_in (standing (holds_in conditions.0) (map (λ row. (row.0, row.1.now)) rows.now)) label }
    ensures most { result ≤ 34 }
{
    let mut count = 0;
    for row in rows {
        if stands_under(conditions, row.1) {
            if row.0 == label {
                return count;
            }
            count += 1;
        }
    }
    count
}
