// Marks and children by handles.
ghost use Rattle.std.specs.Prelude.{◌≡◌, ◌<◌};
ghost use Rattle.arena.specs.Arena.{marked};
ghost use Rattle.plan_context.specs.Handles.{Marks};

// Whether the node is marked.
pub fn is_marked(h: usize) -> bool
    ensures { result ≡ marked h }
{
    h % 2 == 1
}

// The handle of the same tree with the mark b.
pub fn set_mark(h: usize, b: bool) -> usize
    requires { h < 65536 }
    ensures { Marks h b result }
{
    2 * (h / 2) + b as usize
}
