ghost use Rattle.fields.specs.Laws.{FieldsReadBack};
ghost use Rattle.fields.specs.Samples.{FieldSamples};

/// For every kind of field: what is written of an allowed value fills the field's places and reads as that value,
/// and bytes of that many places that are read as a value are what is written of it.
pub fn fields_read_back()
    ensures { FieldsReadBack }
{}

/// Some fields with what is wrong with them.
#[tactic(auto, unfolding(tables::specs::Forms::read_form, crate::specs::Words::is_spare_text))]
pub fn field_samples_hold()
    ensures { FieldSamples }
{}
