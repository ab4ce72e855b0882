// Open cursors that are numbers of rows agree with a session's, which have the rows, over each call.
ghost use Rattle.std.specs.Prelude.{◌≡◌, ℕ, ◌++◌, List, [], ◌∷◌, length, map, take, IfSome, IfNone, OnSome};
ghost use Rattle.std.specs.List.{list_any};
ghost use Rattle.sasi_types.specs.Key.{key_eq};
ghost use Rattle.sasi_cursors_tests.specs.Counts.{closed, given_on, rows_left, Counts, Session};

use sasi_cursors::Cursors;
use sasi_types::Name;
use std::alloc::Global;
use std::process::Abort;

/// Whether the session has a cursor of the name.
fn is_open(cursors: &Cursors<usize>, name: &Name) -> bool
    ensures { (session : Session) → Counts cursors.now session → result ≡ list_any (key_eq name.now) (map (λ cursor. cursor.0) session) }
{
    cursors.has(name)
}

/// How many cursors the session has.
fn count(cursors: &Cursors<usize>) -> usize
    ensures { (session : Session) → Counts cursors.now session → result ≡ length session }
{
    cursors.len()
}

/// Opens a cursor with so many rows, under a name that none has.
fn open(rt: &impl Abort, cursors: &mut Cursors<usize>, name: &Name, rows: usize)
    ensures { (session : Session) (given : List ℕ) → rows ≡ length given → Counts cursors.old session → Counts cursors.new (session ++ (name.now, given) ∷ []) }
{
    assert!(rt; !cursors.has(name));
    cursors.insert(name, rows).expect(rt, "memory");
}

/// Takes so many rows of a cursor, or as many as it has left.
fn fetch(cursors: &mut Cursors<usize>, name: &Name, count: usize) -> Option<usize>
    ensures given { (session : Session) → Counts cursors.old session → IfSome result (λ given. given ≡ length (take count (rows_left name.now session))) }
    ensures agrees { (session : Session) → Counts cursors.old session → OnSome result (Counts cursors.new (given_on name.now count session)) }
    ensures unchanged { IfNone result (cursors.new ≡ cursors.old) }
{
    let Some(left) = cursors.get_mut(name) else {
        return None;
    };
    let given = count.min(*left);
    *left -= given;
    Some(given)
}

/// Closes a cursor.
fn close(cursors: &mut Cursors<usize>, name: &Name)
    ensures { (session : Session) → Counts cursors.old session → Counts cursors.new (closed name.now session) }
{
    cursors.remove(name);
}

fn named(rt: &impl Abort, alloc: Global, text: &str) -> Name {
    Name::new(text.as_bytes().to_vec(alloc).expect(rt, "memory"))
}

#[test]
fn cursors_are_fetched_and_closed(rt: HostRuntime) {
    let mut cursors = Cursors::new(rt.alloc());
    let name = named(&rt, rt.alloc(), "rows");
    open(&rt, &mut cursors, &name, 5);
    assert!(rt; fetch(&mut cursors, &name, 3) == Some(3));
    assert!(rt; fetch(&mut cursors, &name, 3) == Some(2));
    assert!(rt; fetch(&mut cursors, &name, 3) == Some(0));
    assert!(rt; is_open(&cursors, &name));
    close(&mut cursors, &name);
    assert!(rt; fetch(&mut cursors, &name, 3).is_none());
    assert!(rt; count(&cursors) == 0);
}
