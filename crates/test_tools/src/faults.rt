// Sets of faults, for refused calls: a set is a number whose digits in base two are the faults.
ghost use Rattle.std.specs.Prelude.{◌≤◌};

pub fn has(faults: usize, place: usize) -> bool
    requires { place ≤ 10 }
{
    (faults >> place) % 2 == 1
}
