// Document 02 [4]: whether the ports of a text's plugin fit those that stand in the registry's memory already.
#![tactic(auto)]

ghost use Rattle.std.specs.Prelude.{◌≡◌};
ghost use Rattle.rules.specs.Ports.{pairs};
ghost use Rattle.memory.specs.View.{view};
ghost use Rattle.ports_realms.specs.Halving.{reached_in};
ghost use Rattle.registry_joins.specs.Fits.{lent_fit, lists_fit};

use memory::WORDS;
use rules::Port;

// The provisions are resolved, and the rule gives the dependency list from the parent's.
fn lists_fit(
    anchor: Port,
    realms: &[u64],
    parents: &[u64],
    provisions: &[u64],
    dependencies: &[u64],
) -> bool
    ensures { result ≡ lists_fit (reached_in realms.now) anchor (pairs parents.now)
        (pairs provisions.now) (pairs dependencies.now) }
{
    let other = ports_realms::default_realm(realms);
    let rows = ports_realms::rows(realms);
    ports_given::resolved(other, rows, provisions)
        && ports_given::given(other, anchor, rows, provisions, parents, dependencies)
}

// Its realm rows pass row 4, its parent stands there, and its lists fit.
pub fn ports_fit(
    m: &[u64; WORDS],
    parent: Option<u64>,
    anchor: Port,
    realms: &[u64],
    provisions: &[u64],
    dependencies: &[u64],
) -> bool
    ensures { result ≡ lent_fit (view m.now) parent anchor
        realms.now provisions.now dependencies.now }
{
    if ports_realms::bad_realms(ports_realms::rows(realms)) {
        return false;
    }
    let Some(id) = parent else {
        return lists_fit(anchor, realms, &[], provisions, dependencies);
    };
    let Some(at) = memory::find(m, id) else {
        return false;
    };
    let parents = memory_lists::dependency_words(m, at);
    lists_fit(anchor, realms, parents, provisions, dependencies)
}
