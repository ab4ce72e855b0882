// Gives tasks up.
ghost use Rattle.std.specs.Prelude.{◌≡◌, [], OnOk};
ghost use Rattle.std.specs.List.{AllByRecursion};
ghost use Rattle.sasi_host.specs.Disk.{Changes, Within};
ghost use Rattle.sasi_host.specs.View.{DiskCauses};
ghost use Rattle.sasi_tasks.specs.Running.{AreApart, CanGiveUpAll, IsGone, is_begun};

use crate::running::RunningTask;
use sasi_host::{Failed, Host};

/// Gives up all tasks, and deletes what they made.
pub fn give_up<H: Host>(tasks: Vec<RunningTask>, host: &mut H) -> Result<(), Failed>
    requires can { CanGiveUpAll (H.view host.old) tasks.items }
    requires apart { AreApart tasks.items }
    ensures gone { OnOk result (AllByRecursion (IsGone (H.view host.new)) tasks.items) }
    ensures idle { tasks.items ≡ [] → host.new ≡ host.old }
    ensures changes { Changes (Within (is_begun tasks.items)) (H.view host.old) (H.view host.new) }
    ensures causes { DiskCauses (H.view host.old) (H.view host.new) result }
{
    for running in tasks {
        running.task.give_up(host)?;
    }
    Ok(())
}
