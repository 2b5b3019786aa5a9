//! Lists of structures that contain others: what is well formed, or holds, over the structures of a key is so over those of its
//! program. Where a law of the analysis speaks of the key's structures, these carry it to each program that has them.
ghost use Rattle.sym_parts.specs.Shapes.Containing.{
  AtomCarries,
  CalleeCarries,
  CalleesCarry,
  CertCarries,
  CmdCarries,
  ContainsItself,
  ContainsThrough,
  FieldCarries,
  FlowCarries,
  HeapCarries,
  HoldsAlike,
  HoldsCarries,
  HoldsOverOwnKinds,
  KindCarries,
  MeetsAlike,
  MeetsPostAlike,
  MeetsStateAlike,
  PostCarries,
  ProcsCarry,
  SpecCarries,
  StateCarries,
  StatesCarry,
  SumCarries,
  SumOverOwnShapes,
  SummaryCarries,
  SymHeapCarries,
};

/// Containing is reflexive and transitive.
pub fn containing_is_a_preorder()
    ensures itself { ContainsItself }
    ensures through { ContainsThrough }
{}

/// Heaps over the smaller list, and their sums, are such over the larger; and a sum is one over each list over which its whole is a
/// heap.
pub fn heaps_carry()
    ensures heap { HeapCarries }
    ensures sum { SumCarries }
    ensures whole { SumOverOwnShapes }
{}

/// Programs' parts that are well formed over the smaller list are so over the larger.
pub fn flows_carry()
    ensures kind { KindCarries }
    ensures field { FieldCarries }
    ensures cmd { CmdCarries }
    ensures flow { FlowCarries }
    ensures procs { ProcsCarry }
{}

/// Symbolic heaps that are well formed over the smaller list, and all that is made of them, are so over the larger.
pub fn shapes_carry()
    ensures atom { AtomCarries }
    ensures heap { SymHeapCarries }
    ensures state { StateCarries }
    ensures states { StatesCarry }
    ensures post { PostCarries }
    ensures spec { SpecCarries }
    ensures cert { CertCarries }
    ensures callee { CalleeCarries }
    ensures callees { CalleesCarry }
    ensures summary { SummaryCarries }
{}

/// What holds over the smaller list holds over the larger. The other way it does so of each heap over the smaller list; and where
/// the atoms are of its kinds and none is junk, each heap of which it holds is one.
pub fn holds_carries()
    ensures carries { HoldsCarries }
    ensures alike { HoldsAlike }
    ensures own_kinds { HoldsOverOwnKinds }
{}

/// Of a heap over both lists, what meets it over one does so over the other.
pub fn meets_alike()
    ensures heap { MeetsAlike }
    ensures state { MeetsStateAlike }
    ensures post { MeetsPostAlike }
{}
