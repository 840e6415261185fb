// The console's registration: the definition that a line holds goes to the registry.
#![tactic(auto)]

ghost use Rattle.std.specs.Prelude.{◌≤◌, ◌≡◌, ◌∷◌, length, option_map};
ghost use Rattle.rules.specs.Holds.{port};
ghost use Rattle.rules.specs.Steps.{Register};
ghost use Rattle.registry_register.specs.Written.{definition};
ghost use Rattle.console_words.specs.Fronts.{Front};
ghost use Rattle.console_definition.specs.Definitions.{given, lists_in, definition_in};
ghost use Rattle.console_names.specs.Table.{Told};
ghost use Rattle.console_operations.specs.Carried.{Carried};
ghost use Rattle.console_register.specs.Registrations.{registration};

use console_definition::Head;
use console_names::BAD;
use host_answers::ANSWER;
use memory::WORDS;

fn register(
    m: &mut [u64; WORDS],
    parent: Option<u64>,
    head: Head,
    realms: &[u64],
    deps: &[u64],
    provs: &[u64],
    out: &mut [u64; ANSWER],
) -> u64
    ensures { Carried m.old
        (Told (Register (definition parent (port head.key head.realm) realms.now deps.now provs.now head.payload)))
        out.old result out.new m.new }
{
    let key = head.key;
    let realm = head.realm;
    let payload = head.payload;
    match parent {
        Some(id) => host::vaskelbi_register_child(
            m, id, key, realm, payload, realms, deps, provs, out,
        ),
        None => host::vaskelbi_register(m, key, realm, payload, realms, deps, provs, out),
    }
}

// The realm list that a registration is given goes to the front of an array, whose rest stays: edition, default, and the rows.
fn realm_list(head: Head, rows: &[u64], list: &mut [u64; 2050]) -> usize
    requires { length rows.now ≤ 2048 }
    ensures { Front (head.edition ∷ head.default ∷ rows.now) result list.old list.new }
{
    let end = rows.len() + 2;
    list[0] = head.edition;
    list[1] = head.default;
    list[2..end].copy_from_slice(rows);
    end
}

// The parent and the numbers behind it are read; the lists stand behind them.
fn with_lists(
    m: &mut [u64; WORDS],
    parent: Option<u64>,
    head: Head,
    bytes: &[u8],
    out: &mut [u64; ANSWER],
) -> u64
    ensures { Carried m.old (registration (option_map (given parent head) (lists_in bytes.now head.stop)))
        out.old result out.new m.new }
{
    let mut rows = [0u64; 2048];
    let mut deps = [0u64; 2048];
    let mut provs = [0u64; 2048];
    let lists = console_definition::three_lists(bytes, head.stop, &mut rows, &mut deps, &mut provs);
    let Ok(all) = lists else {
        return BAD;
    };
    let mut realms = [0u64; 2050];
    let size = realm_list(head, &rows[..all.realms], &mut realms);
    register(
        m,
        parent,
        head,
        &realms[..size],
        &deps[..all.deps],
        &provs[..all.provs],
        out,
    )
}

// What stands behind the word `register`.
pub fn registered(m: &mut [u64; WORDS], bytes: &[u8], from: usize, out: &mut [u64; ANSWER]) -> u64
    ensures { Carried m.old (registration (definition_in bytes.now from))
        out.old result out.new m.new }
{
    let Ok(under) = console_definition::read_parent(bytes, from) else {
        return BAD;
    };
    let Ok(head) = console_definition::read_head(bytes, under.stop) else {
        return BAD;
    };
    with_lists(m, under.parent, head, bytes, out)
}
