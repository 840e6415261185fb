// Retirement by id and by child identity, a plugin's child identity, and removal.
ghost use Rattle.rules.specs.Steps.{Retire, RetireChild, Remove, Ask};
ghost use Rattle.rules.specs.Questions.{ChildIdentity};
ghost use Rattle.registry_retire.specs.Answers.{identified};
ghost use Rattle.host_answers.specs.Told.{Tells};
ghost use Rattle.host.specs.Tells.{answer, Does};

use host_answers::ANSWER;
use memory::WORDS;
use slot_child::Identity;

pub fn vaskelbi_retire(m: &mut [u64; WORDS], id: u64) -> u64
    ensures { Does m.old (Retire id) result m.new }
{
    host_answers::done(registry_retire::retire(m, id))
}

pub fn vaskelbi_retire_child(m: &mut [u64; WORDS], domain: u64, parent: u64, id: u64) -> u64
    ensures { Does m.old (RetireChild (identified domain parent id)) result m.new }
{
    let child = Identity { domain, parent, id };
    host_answers::done(registry_retire::retire_child(m, child))
}

// A plugin's child identity: domain, parent, id; no number without a parent.
pub fn vaskelbi_child(m: &[u64; WORDS], id: u64, out: &mut [u64; ANSWER]) -> u64
    ensures { Tells (answer m.now (Ask (ChildIdentity id))) out.old result out.new }
{
    host_answers::child(registry_retire::child_identity(m, id), out)
}

pub fn vaskelbi_remove(m: &mut [u64; WORDS], id: u64) -> u64
    ensures { Does m.old (Remove id) result m.new }
{
    host_answers::done(registry_remove::remove(m, id))
}
