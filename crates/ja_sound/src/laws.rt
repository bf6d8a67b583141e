//! What a closed table says of every run. The functions do nothing; their contracts are the laws.

ghost use Rattle.std.specs.Prelude.{List};
ghost use Rattle.ja_graph.specs.declared.program.Program.{Program};
ghost use Rattle.ja_graph.specs.WellFormed.{IsWellFormed};
ghost use Rattle.ja_rows.specs.declared.table.Warning.{Warning};
ghost use Rattle.ja_rows.specs.Table.{Table, IsClosed};
ghost use Rattle.ja_rows.specs.Warning.{AreWarnings};
ghost use Rattle.ja_sound.specs.Sound.{CoversRuns, FailsWhereCertain, WarnsOfFaults};
ghost use Rattle.ja_sound.specs.Sound.{WarnsOfRows};
ghost use Rattle.ja_sound.specs.Statements.{SoundWithin, SoundInto, SoundOutOf};
ghost use Rattle.ja_sound.specs.Throws.{FaultsThrow};

use ja_machine::{objects_stay, states_are_kept, steps_go_along_edges};

/// A step within an activation, of any kind of node: where the view's state holds, and the values
/// that the node demands are there, one of the states that the node gives holds after it.
pub fn steps_sound()
    ensures { (p : Program) → IsWellFormed p → SoundWithin p }
{}

/// A step into a function, by a call, a construction or a conversion: the edge is one of those that
/// the node gives, and where the values that it demands are there, the state at the function's
/// entry holds, the caller's state still does, and so do the values that fill the callee's entry.
pub fn entries_sound()
    ensures { (p : Program) → IsWellFormed p → SoundInto p }
{
    steps_go_along_edges();
}

/// A step out of a function: where the state at the exit holds, and the caller's state held when
/// the function was entered, one of the states that the exit gives back holds of the caller after
/// it.
pub fn returns_sound()
    ensures { (p : Program) → IsWellFormed p → SoundOutOf p }
{
    steps_go_along_edges();
}

/// A closed table covers every run of its program: after each list of answers, the table has a
/// state at the node and the context of the top frame, that state holds of the heap and the frame,
/// and the values at entry hold of the heap in which the frame was entered.
pub fn closed_covers()
    ensures { (p : Program) (t : Table) → IsWellFormed p → IsClosed p t → CoversRuns p t }
{
    states_are_kept();
    steps_go_along_edges();
    objects_stay();
}

/// An operation without a warning never goes wrong: where a run comes to the call or the
/// construction of what is no function, to the object of undefined or null, or to the read of a
/// name that no object of its scope chain has, the warnings of a closed table have that operation.
pub fn warned_of_faults()
    ensures { (p : Program) (t : Table) (ws : List Warning) → IsWellFormed p → IsClosed p t
        → AreWarnings p t ws → WarnsOfFaults p ws }
{
    closed_covers();
    states_are_kept();
    objects_stay();
}

/// A certain warning is certain: a run that comes to its operation goes wrong there. What is called
/// or constructed runs no function, what a property is asked of is undefined or null, no object of
/// the scope chain has the name, or what is read is a built-in that isn't there. At the last two
/// the run may also leave the profile, where a register holds a value that its node doesn't take.
pub fn fails_where_certain()
    ensures { (p : Program) (t : Table) (ws : List Warning) → IsWellFormed p → IsClosed p t
        → AreWarnings p t ws → FailsWhereCertain p ws }
{
    closed_covers();
    states_are_kept();
    objects_stay();
}

/// A built-in that isn't there is read nowhere without a warning: where a run leaves the profile at
/// the read of a name, or of a property whose key is one text in the table's state there, the
/// warnings of a closed table have that operation.
pub fn warned_of_rows()
    ensures { (p : Program) (t : Table) (ws : List Warning) → IsWellFormed p → IsClosed p t
        → AreWarnings p t ws → WarnsOfRows p t ws }
{
    states_are_kept();
    objects_stay();
}

/// What goes wrong is what throws: `fault_of` says an operation of a state that is reached exactly
/// where its step throws the error of that kind at that node, with its prototype and its message,
/// made at a site for errors of the node, or leaves the profile since the message is too long.
pub fn faults_throw()
    ensures { (p : Program) → IsWellFormed p → FaultsThrow p }
{
    states_are_kept();
}
