// How a call of a disk in memory begins.
ghost use Rattle.std.specs.Prelude.{◌≡◌, ◌==◌, ◌-◌, if◌then◌else◌};
ghost use Rattle.arm_edges.specs.Calls.{one_more};
ghost use Rattle.mem_disk.specs.Begun.{Begins};

use arm_edges::Calls;

#[derive(Clone, Copy, Debug, PartialEq, Eq)]
pub(crate) enum Begun {
    // No call is left.
    Refused,
    // The call is one of those that fail.
    Fails,
    // The call goes on, and moves so many bytes at most.
    Goes(usize),
}

// Takes one of the calls that are left, and counts the call where it fails.
pub(crate) fn begin(left: &mut usize, calls: &mut Calls) -> Begun
    ensures begins { Begins result left.old left.new calls.old calls.new }
    ensures left { left.new ≡ left.old - 1 }
    ensures cuts { calls.new.cuts ≡ calls.old.cuts }
    ensures fails { calls.new.fails ≡ calls.old.fails }
    ensures made { calls.new.made
        ≡ (if left.old == 0 then calls.old.made else one_more calls.old.made) }
{
    if *left == 0 {
        calls.fault();
        return Begun::Refused;
    }
    *left -= 1;
    match calls.begin() {
        Ok(limit) => Begun::Goes(limit),
        Err(_) => Begun::Fails,
    }
}
