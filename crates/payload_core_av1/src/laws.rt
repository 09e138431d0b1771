//! The laws of AV1 payloads.

ghost use Rattle.payload_core_av1.specs.Av1Coding.{HeaderLaw, av1_coding, PacketsLaw, PrefixLaw, RefusedLaw};
ghost use Rattle.payload_core_av1.specs.Av1Coding.{SpellingLaw};
ghost use Rattle.payload_core_av1.specs.Av1Layout.{LayoutLaw, ReadLaw, ShortLaw};
ghost use Rattle.payload_core_av1.specs.Av1Open.{EmptyLaw, FreshLaw};
ghost use Rattle.payload_core_av1.specs.Samples.{KeptOnce, SampleLaw};
ghost use Rattle.payload_core_base.specs.Law.{CodecLaw};

/// A packet is read if and only if its body is its OBU elements, each preceded by its size (except
/// the last if W counts them), and its complete elements are OBUs. It gives those OBUs that are
/// kept, each with its size, and leaves open the fragment that Y announces. A packet of fewer than
/// two bytes is refused as too short, any other as corrupted.
pub fn av1_layout_law()
    ensures laid_out { LayoutLaw }
    ensures read { ReadLaw }
    ensures short { ShortLaw }
{}

/// AV1 obeys the codec law: the kept OBUs of a sample, each with its size, are the parts of one
/// unit, unless there are none or the limit is below 2; and dropping OBUs is idempotent.
pub fn av1_law()
    ensures codec { CodecLaw av1_coding }
    ensures kept_once { KeptOnce }
{}

/// A sample is accepted if and only if it is a sequence of OBUs. Its packets have between two bytes
/// and the limit, each with the longest prefix of the rest that fits. W counts up to three
/// elements, Z and Y mark a cut at the start and at the end, and N is on the first packet of a
/// sample with a sequence header. A limit below 2 gives no packets.
pub fn av1_packets_law()
    ensures sample { SampleLaw }
    ensures packets { PacketsLaw }
    ensures refused { RefusedLaw }
    ensures header { HeaderLaw }
    ensures prefix { PrefixLaw }
{}

/// A size is written in its shortest spelling.
pub fn av1_size_law()
    ensures { SpellingLaw }
{}

/// A packet without Z is read the same whatever fragment is open; one with Z whose only element is
/// empty gives nothing and doesn't change the open fragment.
pub fn av1_open_law()
    ensures fresh { FreshLaw }
    ensures empty { EmptyLaw }
{}
