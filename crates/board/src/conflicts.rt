// Sets against the conflicts of a policy. Values count as they are held: no junior is looked for.
ghost use Rattle.std.specs.Prelude.{◌≡◌, map, ◌≤◌};
ghost use Rattle.policy.specs.Value.{conflict_places, conflicts_of};
ghost use Rattle.board.specs.Inner.{held_at, exceeded, over};

use crate::{SESSION_PLACES, Session};
use policy::value::{Conflict, Conflicts};

// What a session holds; the empty set where it is closed.
fn held_by(entry: Session) -> u32
    ensures { result ≡ held_at entry }
{
    if entry.live != 0 { entry.held } else { 0 }
}

// The sets that the sessions of a board hold.
pub fn held(sessions: &[Session; SESSION_PLACES]) -> [u32; SESSION_PLACES]
    ensures { result ≡ map held_at sessions.now }
{
    let mut held = [0; SESSION_PLACES];
    for (i, entry) in sessions.iter().enumerate() {
        held[i] = held_by(*entry);
    }
    held
}

// Whether one of these sets has too many values of a conflict. The chain has no early way out, so that the compiler can
// look at several sets at once.
fn exceeded(conflict: Conflict, sets: &[u32]) -> bool
    ensures { result ≡ exceeded conflict sets.now }
{
    sets.iter().fold(
        false,
        |some, set| some | (conflict.most < (conflict.set & set).count_ones()),
    )
}

// Whether one of these sets has too many values of some conflict.
pub fn over(conflicts: &Conflicts, sets: &[u32]) -> bool
    requires { conflicts.now.count ≤ conflict_places }
    ensures { result ≡ over (conflicts_of conflicts.now) sets.now }
{
    conflicts.entries[..conflicts.count]
        .iter()
        .any(|conflict| exceeded(*conflict, sets))
}
