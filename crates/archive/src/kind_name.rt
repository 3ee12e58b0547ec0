// The kinds of profile that an archive files, by their words.
ghost use Rattle.std.specs.Prelude.{◌≡◌};
ghost use Rattle.std.specs.Result.{result_ok};
ghost use Rattle.archive.specs.Grammar.{kind_of};

/// `Both` is the pair with airtime first.
#[derive(Clone, Copy, PartialEq, Eq, Debug)]
pub enum KindName {
    Airtime,
    Crews,
    Both,
}

/// A word that names no kind.
#[derive(Clone, Copy, PartialEq, Eq, Debug)]
pub struct UnknownKind;

impl TryFrom<&[u8]> for KindName {
    type Error = UnknownKind;

    ghost try_from_gives = { λ word r. result_ok r ≡ kind_of word.now };

    fn try_from(word: &[u8]) -> Result<KindName, UnknownKind> {
        match word {
            b"airtime" => Ok(KindName::Airtime),
            b"crews" => Ok(KindName::Crews),
            b"both" => Ok(KindName::Both),
            _ => Err(UnknownKind),
        }
    }
}
