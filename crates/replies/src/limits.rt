// Document 02, Q-13: the limits of a dossier, which an installation chooses.
ghost use Rattle.std.specs.Prelude.{◌≡◌};
ghost use Rattle.model.specs.Limits.{standard, is_permitted};
ghost use Rattle.replies.specs.ChosenLimits.{limits_of};

// How many event versions, parents, and objects of an unversioned type a dossier has at most.
#[derive(Clone, Copy)]
pub struct Limits {
    pub versions: usize,
    pub parents: usize,
    pub objects: usize,
}

// Document 01's own, which are also the largest that can be chosen.
pub fn standard_limits() -> Limits
    ensures { limits_of result ≡ standard }
{
    Limits {
        versions: 8,
        parents: 32,
        objects: 256,
    }
}

// Question 18: whether each of them is in its range.
pub fn is_permitted(limits: Limits) -> bool
    ensures { result ≡ is_permitted (limits_of limits) }
{
    if limits.versions < 1 {
        return false;
    }
    if 8 < limits.versions {
        return false;
    }
    if limits.parents < 8 {
        return false;
    }
    if 32 < limits.parents {
        return false;
    }
    if limits.objects < 32 {
        return false;
    }
    limits.objects <= 256
}
