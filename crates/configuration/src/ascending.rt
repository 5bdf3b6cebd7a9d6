// The order of pending tasks.
ghost use Rattle.std.specs.Prelude.{◌≡◌, map};
ghost use Rattle.configuration.specs.Tests.{ascends};
ghost use Rattle.configuration.specs.Meaning.{frames_of};

use crate::task::Task;

// The tasks ascend by their nine bytes.
pub(crate) fn ascending(tasks: &[Task]) -> bool
    ensures { result ≡ ascends (map frames_of tasks.now) }
{
    // a loop: each key is reckoned once, and the order of two keys stands in one place
    let mut last = 0;
    for task in tasks {
        let key = task.key();
        if key < last {
            return false;
        }
        last = key;
    }
    true
}
