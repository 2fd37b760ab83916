//! Laws of what the bytes of a program are.
ghost use Rattle.bp_script.specs.Laws.{OneRefusal, ProgramOrRefused};
ghost use Rattle.bp_script.specs.Programs.{NeverBoth, OneProgram, EachIsProgram};

/// Laws of reading: each bytes, of whatever length, are a program or refused, and none are both; accepted bytes
/// are a program, and the bytes of one text are one program; refused bytes are refused in one way, but for the
/// line of a text that spells no tree.
pub fn read_one_way(bytes: &[u8])
    ensures some_way { ProgramOrRefused bytes.now }
    ensures never_both { NeverBoth bytes.now }
    ensures one_program { OneProgram bytes.now }
    ensures each_is_program { EachIsProgram bytes.now }
    ensures one_refusal { OneRefusal bytes.now }
{}
