//! Items of a list replaced by others, without memory.

ghost use Rattle.std.specs.Prelude.{◌≡◌, ◌+◌, ◌-◌, ◌≤◌, ◌++◌, Some, IsSome, take, drop};
ghost use Rattle.std.specs.Prelude.{reverse, vec_len, vec_capacity};
ghost use Rattle.edit_ops.specs.Splices.{spliced, replaced};

use song_model::Bounded;

/// Items that come into a list in place of others.
#[derive(Drop)]
pub struct Splice<T> {
    /// The place of the first of the others, counted from 0.
    pub at: usize,
    /// How many go.
    pub count: usize,
    /// Those that come, with room for the whole list.
    pub items: Vec<T>,
}

/// Moves so many items from the end of a list to the end of another, the last one first.
fn move_last<T>(from: &mut Vec<T>, to: &mut Vec<T>, count: usize)
    requires stored { count ≤ vec_len from.old }
    requires room { vec_len to.old + count ≤ vec_capacity to.old }
    ensures left { from.new.items ≡ take (vec_len from.old - count) from.old.items }
    ensures moved { to.new.items ≡
        to.old.items ++ reverse (drop (vec_len from.old - count) from.old.items) }
    ensures same_room { vec_capacity from.new ≡ vec_capacity from.old }
{
    for _i in 0..count {
        to.push_reserved(from.take_last());
    }
}

/// Puts items in place of `count` items of a list: the items become the whole list, and the list those that go.
fn put_in_place<T>(list: &mut Vec<T>, at: usize, count: usize, items: &mut Vec<T>)
    requires stored { at + count ≤ vec_len list.old }
    requires room { vec_len list.old - count + vec_len items.old ≤ vec_capacity items.old }
    ensures whole { items.new.items ≡ spliced at count items.old.items list.old.items }
    ensures gone { list.new.items ≡ take count (drop at list.old.items) }
    ensures same_room { vec_capacity list.new ≡ vec_capacity list.old }
{
    let kept = list.len() - count;
    list.rotate_left(at + count);
    list.reverse();
    move_last(list, items, kept);
    list.reverse();
    items.rotate_right(at);
}

impl<T: Drop> Splice<T> {
    /// Puts the items into a list that they fit, and answers the splice that leads back.
    #[tactic(auto, unfolding(crate::specs::Splices::replaced))]
    pub(crate) fn put<const LIMIT: usize>(self, list: &mut Bounded<T, LIMIT>) -> Splice<T>
        requires { IsSome (replaced LIMIT list.old self) }
        ensures there { replaced LIMIT list.old self ≡ Some list.new }
        ensures and_back { replaced LIMIT list.new result ≡ Some list.old }
    {
        let Splice {
            at,
            count,
            mut items,
        } = self;
        let coming = items.len();
        let mut gone = list.take();
        put_in_place(&mut gone, at, count, &mut items);
        *list = Bounded::from_vec(items);
        Splice {
            at,
            count: coming,
            items: gone,
        }
    }
}
