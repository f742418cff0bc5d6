// The words that a run is started with.
ghost use Rattle.std.specs.Prelude.{◌≡◌, ◌<◌, length, IfSome};

use crate::request_calls::RequestCall;
use crate::table_calls::TableCall;
use crate::tree_calls::TreeCall;

/// The part that is called, and how.
#[derive(Clone, Copy)]
pub enum What {
    Tree(TreeCall),
    Table(TableCall),
    Requests(RequestCall),
}

/// What a run is to do.
#[derive(Clone, Copy)]
pub struct Task {
    pub what: What,
    /// How many keys the part has before the calls, 1 or more.
    pub keys: u32,
    pub calls: u32,
}

/// The task that the words give, where they are `WHAT KEYS CALLS` with at least one key.
pub fn task_of(words: &[String]) -> Option<Task>
    ensures keys { IfSome result (λ task. 0 < task.keys) }
    ensures words { IfSome result (λ _. length words.now ≡ 3) }
{
    let [what, keys, calls] = words else {
        return None;
    };
    let what = what_of(what.as_str())?;
    let keys = keys.parse::<u32>().ok()?;
    let calls = calls.parse::<u32>().ok()?;
    if keys == 0 {
        return None;
    }
    Some(Task { what, keys, calls })
}

// The call of this name.
fn what_of(word: &str) -> Option<What> {
    Some(match word {
        "find" => What::Tree(TreeCall::Find),
        "insert" => What::Tree(TreeCall::Insert),
        "remove" => What::Tree(TreeCall::Remove),
        "next" => What::Tree(TreeCall::Next),
        "place_of" => What::Table(TableCall::PlaceOf),
        "seat" => What::Table(TableCall::Seat),
        "next_placed" => What::Table(TableCall::NextPlaced),
        "waiting" => What::Requests(RequestCall::Waiting),
        "push" => What::Requests(RequestCall::Push),
        _ => return None,
    })
}
