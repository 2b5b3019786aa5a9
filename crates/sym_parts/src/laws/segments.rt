//! Segments beside other atoms.
ghost use Rattle.sym_parts.specs.Laws.Segments.{SegmentUnfolds, SegmentMayBeEmpty, CellIsSegment, SegmentsJoin};

/// A segment is empty and its ends are equal, or it is a cell with new variables for its fields and a segment.
pub fn segment_unfolds()
    ensures { SegmentUnfolds }
{}

/// A segment whose ends are equal may be empty.
pub fn segment_may_be_empty()
    ensures { SegmentMayBeEmpty }
{}

/// A cell is a segment to what its link holds.
pub fn cell_is_segment()
    ensures { CellIsSegment }
{}

/// Two segments, the second from where the first leads to, are one.
pub fn segments_join()
    ensures { SegmentsJoin }
{}
