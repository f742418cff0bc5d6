// Each kind of call, of a few keys.
use crate::count_of;
use crate::words::task_of;
use std::process::Abort;
use std::test::Fail;

/// Words, and how many calls found or did what they were to; None for words that aren't a task.
const TASKS: [([&'static str; 3], Option<u32>); 12] = [
    (["find", "50", "30"], Some(30)),
    (["insert", "50", "30"], Some(30)),
    (["remove", "50", "30"], Some(30)),
    (["remove", "20", "30"], Some(20)),
    (["next", "1", "30"], Some(0)),
    (["place_of", "50", "30"], Some(30)),
    (["seat", "50", "30"], Some(30)),
    (["next_placed", "1", "30"], Some(0)),
    (["waiting", "50", "30"], Some(30)),
    (["push", "50", "30"], Some(30)),
    (["push", "0", "30"], None),
    (["pull", "50", "30"], None),
];

#[test]
fn calls_are_answered(rt: HostRuntime) -> Result<(), Fail> {
    let alloc = rt.alloc();
    for (texts, wanted) in TASKS {
        let mut words = Vec::new(alloc);
        for text in texts {
            words.push(String::from_str(alloc, text)?)?;
        }
        let count = match task_of(&words) {
            Some(task) => Some(count_of(alloc, task)?),
            None => None,
        };
        assert_eq!(rt; count, wanted, "{}", texts[0]);
    }
    Ok(())
}
