// What a value of a task may wait for. A law has no body: its contract is the law.
ghost use Rattle.std.specs.Prelude.{◌≡◌, ℕ, List};
ghost use Rattle.reading.specs.Knowledge.{waits, told};
ghost use Rattle.deploy_cells.specs.Cells.{Step, Position, Cell};
ghost use Rattle.plan_cells.specs.Known.{Table};
ghost use Rattle.plan_cells.specs.Meaning.{Deployment, plain};
ghost use Rattle.plan_cells.specs.Children.{Has};
ghost use Rattle.plan_cells.specs.Reads.{entry_cells};
ghost use Rattle.deploy_histories.specs.Values.{body_reading, output_reading};
ghost use Rattle.awaited_cells.specs.Awaited.{MaySee, MaySeeAround};

/// The body of an instance waits for what expressions of its scope may see.
pub fn awaited_by_bodies()
    ensures { (d : Deployment) (t : Table) (p : Position) (s : Step) (c : Cell) → told t (body_reading d p s) ≡ waits c
        → MaySee d p c }
{}

/// A parameter or a variable waits for what expressions of its scope, or of the scope around, may see.
pub fn awaited_by_entries()
    ensures { (d : Deployment) (t : Table) (p : Position) (e c : Cell) → Has e (entry_cells d p)
        → told t (plain d e) ≡ waits c → MaySeeAround d p c }
{}

/// An output waits for what expressions of its scope may see.
pub fn awaited_by_outputs()
    ensures { (d : Deployment) (t : Table) (p : Position) (x : List ℕ) (c : Cell)
        → told t (output_reading d p x) ≡ waits c → MaySee d p c }
{}
