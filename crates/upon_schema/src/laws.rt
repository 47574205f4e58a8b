// Of which values the schema of a shape is.
ghost use Rattle.upon_types.specs.Val.{Val};
ghost use Rattle.upon_shape_spec.specs.Fits.{Fits, MapsRise};
ghost use Rattle.upon_shape_spec.specs.Shape.{Shape};
ghost use Rattle.upon_schema.specs.Valid.{Valid};
ghost use Rattle.upon_schema.specs.Written.{schema_value};

/// States that just the values of a shape are valid by its schema, if the keys of their maps are in their order.
pub fn schema_is_of_the_shape()
    ensures valid { (s : Shape) (v : Val) → Fits s v → Valid (schema_value s) v }

    ensures fits { (s : Shape) (v : Val) → MapsRise v → Valid (schema_value s) v → Fits s v }
{}
