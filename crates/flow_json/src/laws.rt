//! Laws of the forms: reading is the inverse of writing, and what is well formed can be written.
ghost use Rattle.flow_json.specs.Flows.{flow_data, read_flow};
ghost use Rattle.flow_json.specs.Laws.{FlowFits, IsInverse, StructFits};
ghost use Rattle.flow_json.specs.Texts.{FlowsAreTexts, StructsAreTexts};
ghost use Rattle.flow_json.specs.Types.{read_struct, struct_data};

/// What fits is read as it was written, and what is read was written so.
pub fn reading_is_inverse()
    ensures structs { IsInverse StructFits struct_data read_struct }
    ensures flows { IsInverse FlowFits flow_data read_flow }
{}

/// The names of what is well formed are texts.
pub fn well_formed_is_text()
    ensures structs { StructsAreTexts }
    ensures flows { FlowsAreTexts }
{}
