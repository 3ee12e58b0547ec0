// What the words of the contracts mean, resource by resource.
ghost use Rattle.loads.specs.Meaning.{Meanings};

/// Carries the theorem that the definitions on lists of counts say what they are called.
pub fn counts_stand()
    ensures { Meanings }
{}
