ghost use Rattle.base_tests.specs.Names.{AreJudged, AreFolded, AreReserved, AreSystems, names, folded, reserved, systems};
ghost use Rattle.base_tests.specs.Texts.{AreSame, AreNumbers, AreKnown, texts, numbers, known};

/// Each name has the fault and each word the meaning that stands beside it. It does nothing when it runs.
pub fn names_are_judged()
    ensures names { AreJudged names }
    ensures folded { AreFolded folded }
    ensures reserved { AreReserved reserved }
    ensures systems { AreSystems systems }
{}

/// Each path, message and state is the text beside it, and of the others it is told which are numbers and which errors
/// there are. It does nothing when it runs.
pub fn texts_are_judged()
    ensures texts { AreSame texts }
    ensures numbers { AreNumbers numbers }
    ensures known { AreKnown known }
{}
