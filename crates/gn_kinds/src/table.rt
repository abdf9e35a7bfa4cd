ghost use Rattle.std.specs.Prelude.{◌≡◌, map};
ghost use Rattle.gn_kinds.specs.Seen.{row_of};
ghost use Rattle.gn_kinds.specs.Table.{table, values, functions, elsewhere, attributes, geometry_kinds, instance_kinds, groups};

use crate::common::{
    ANY_BUT_CORNER, ANY_KIND, ANY_PLACE, CHOSEN, FIXED_VALUE, GEOMETRIES, GEOMETRY, HALF, INDEX,
    INTEGER, MESH_PLACES, NEW_GEOMETRY, NUMBER, ONE, POSITION, SELECTION, TEN, THREE, TRUTH, VALUE,
    VALUE_KINDS, VECTOR, X_AXIS, Y_AXIS, Z_AXIS, ZERO,
};
use crate::row::{DefaultValue, InputRow, OutputRow, Row, SettingForm, SocketKind};
use gn_value::{Fx, Place, V3, Value, ValueKind};

/// Kinds of values and inputs.
static VALUES: [Row; 11] = [
    // Gives its constant, a fixed number.
    Row {
        kind: "float",
        settings: &[SettingForm::Value(ValueKind::Fixed)],
        inputs: &[],
        outputs: &[NUMBER],
        open: false,
    },
    // Gives its constant, a whole number.
    Row {
        kind: "integer",
        settings: &[SettingForm::Value(ValueKind::Int)],
        inputs: &[],
        outputs: &[INTEGER],
        open: false,
    },
    // Gives its constant, true or false.
    Row {
        kind: "boolean",
        settings: &[SettingForm::Value(ValueKind::Truth)],
        inputs: &[],
        outputs: &[TRUTH],
        open: false,
    },
    // Gives its constant, a vector.
    Row {
        kind: "vector",
        settings: &[SettingForm::Value(ValueKind::Vector)],
        inputs: &[],
        outputs: &[OutputRow::Field("value", ValueKind::Vector)],
        open: false,
    },
    // The position of the element: of a vertex, a cloud's point or an instance, and else the mean
    // of the vertices around it.
    Row {
        kind: "position",
        settings: &[],
        inputs: &[],
        outputs: &[OutputRow::Field("position", ValueKind::Vector)],
        open: false,
    },
    // The number of the element, from 0.
    Row {
        kind: "index",
        settings: &[],
        inputs: &[],
        outputs: &[OutputRow::Field("index", ValueKind::Int)],
        open: false,
    },
    // The value of the column `id` at the element, or its index where there is no such column.
    Row {
        kind: "id",
        settings: &[],
        inputs: &[],
        outputs: &[OutputRow::Field("id", ValueKind::Int)],
        open: false,
    },
    // The normal of a face, scaled to length 1, and on other places of the mesh the mean of the
    // normals of the faces around.
    Row {
        kind: "normal",
        settings: &[],
        inputs: &[],
        outputs: &[OutputRow::Field("normal", ValueKind::Vector)],
        open: false,
    },
    // The value of the column of that name, converted to `type`, and whether there is such a
    // column.
    Row {
        kind: "named_attribute",
        settings: &[SettingForm::Name, SettingForm::Type(VALUE_KINDS)],
        inputs: &[],
        outputs: &[CHOSEN, OutputRow::Field("exists", ValueKind::Truth)],
        open: false,
    },
    // The two vertices of an edge, by number and by position.
    Row {
        kind: "edge_vertices",
        settings: &[],
        inputs: &[],
        outputs: &[
            OutputRow::Field("index_1", ValueKind::Int),
            OutputRow::Field("index_2", ValueKind::Int),
            OutputRow::Field("position_1", ValueKind::Vector),
            OutputRow::Field("position_2", ValueKind::Vector),
        ],
        open: false,
    },
    // How many edges end at a vertex, and how many faces have it as a corner.
    Row {
        kind: "vertex_neighbors",
        settings: &[],
        inputs: &[],
        outputs: &[
            OutputRow::Field("vertices", ValueKind::Int),
            OutputRow::Field("faces", ValueKind::Int),
        ],
        open: false,
    },
];

/// Kinds of functions of values.
static FUNCTIONS: [Row; 13] = [
    // Applies `op` to fixed numbers; `absolute` to `sqrt` take `a` alone, and `less_than` and
    // `greater_than` give 1 or 0.
    Row {
        kind: "math",
        settings: &[SettingForm::Op(&[
            "add",
            "subtract",
            "multiply",
            "divide",
            "modulo",
            "minimum",
            "maximum",
            "absolute",
            "sign",
            "floor",
            "ceil",
            "fraction",
            "sqrt",
            "less_than",
            "greater_than",
        ])],
        inputs: &[
            InputRow::Field("a", ValueKind::Fixed, ZERO),
            InputRow::Field("b", ValueKind::Fixed, ZERO),
        ],
        outputs: &[NUMBER],
        open: false,
    },
    // Applies `op` to whole numbers; `absolute`, `sign` and `negate` take `a` alone.
    Row {
        kind: "integer_math",
        settings: &[SettingForm::Op(&[
            "add", "subtract", "multiply", "divide", "modulo", "minimum", "maximum", "absolute",
            "sign", "negate",
        ])],
        inputs: &[
            InputRow::Field("a", ValueKind::Int, ZERO),
            InputRow::Field("b", ValueKind::Int, ZERO),
        ],
        outputs: &[INTEGER],
        open: false,
    },
    // Applies `op` to vectors; `dot`, `length` and `distance` give `value`, the others `vector`.
    Row {
        kind: "vector_math",
        settings: &[SettingForm::Op(&[
            "add",
            "subtract",
            "multiply",
            "divide",
            "minimum",
            "maximum",
            "absolute",
            "cross",
            "scale",
            "normalize",
            "dot",
            "length",
            "distance",
        ])],
        inputs: &[
            InputRow::Field("a", ValueKind::Vector, ZERO),
            InputRow::Field("b", ValueKind::Vector, ZERO),
            InputRow::Field("scale", ValueKind::Fixed, ONE),
        ],
        outputs: &[VECTOR, NUMBER],
        open: false,
    },
    // Applies `op` to truths; `not` takes `a` alone.
    Row {
        kind: "boolean_math",
        settings: &[SettingForm::Op(&["and", "or", "xor", "nand", "nor", "not"])],
        inputs: &[
            InputRow::Field("a", ValueKind::Truth, ZERO),
            InputRow::Field("b", ValueKind::Truth, ZERO),
        ],
        outputs: &[TRUTH],
        open: false,
    },
    // Whether `op` holds between `a` and `b`.
    Row {
        kind: "compare",
        settings: &[
            SettingForm::Type(&[SocketKind::Int, SocketKind::Fixed]),
            SettingForm::Op(&[
                "less",
                "less_equal",
                "greater",
                "greater_equal",
                "equal",
                "not_equal",
            ]),
        ],
        inputs: &[InputRow::Chosen("a", ZERO), InputRow::Chosen("b", ZERO)],
        outputs: &[OutputRow::Field("result", ValueKind::Truth)],
        open: false,
    },
    // Brings a number into the range from `min` to `max`.
    Row {
        kind: "clamp",
        settings: &[],
        inputs: &[
            FIXED_VALUE,
            InputRow::Field("min", ValueKind::Fixed, ZERO),
            InputRow::Field("max", ValueKind::Fixed, ONE),
        ],
        outputs: &[NUMBER],
        open: false,
    },
    // Maps the range of `from_min` to `from_max` onto that of `to_min` to `to_max`, and with
    // `clamp` stays within it.
    Row {
        kind: "map_range",
        settings: &[SettingForm::Clamp],
        inputs: &[
            FIXED_VALUE,
            InputRow::Field("from_min", ValueKind::Fixed, ZERO),
            InputRow::Field("from_max", ValueKind::Fixed, ONE),
            InputRow::Field("to_min", ValueKind::Fixed, ZERO),
            InputRow::Field("to_max", ValueKind::Fixed, ONE),
        ],
        outputs: &[NUMBER],
        open: false,
    },
    // Goes from `a` to `b` by `factor`, which is brought into 0 to 1.
    Row {
        kind: "mix",
        settings: &[SettingForm::Type(&[SocketKind::Fixed, SocketKind::Vector])],
        inputs: &[
            InputRow::Field("factor", ValueKind::Fixed, HALF),
            InputRow::Chosen("a", ZERO),
            InputRow::Chosen("b", ZERO),
        ],
        outputs: &[CHOSEN],
        open: false,
    },
    // Makes a whole number of a fixed one, by `op`.
    Row {
        kind: "float_to_integer",
        settings: &[SettingForm::Op(&["round", "floor", "ceil", "truncate"])],
        inputs: &[FIXED_VALUE],
        outputs: &[INTEGER],
        open: false,
    },
    // Makes a vector of three numbers.
    Row {
        kind: "combine_xyz",
        settings: &[],
        inputs: &[
            InputRow::Field("x", ValueKind::Fixed, ZERO),
            InputRow::Field("y", ValueKind::Fixed, ZERO),
            InputRow::Field("z", ValueKind::Fixed, ZERO),
        ],
        outputs: &[VECTOR],
        open: false,
    },
    // Gives the three numbers of a vector.
    Row {
        kind: "separate_xyz",
        settings: &[],
        inputs: &[InputRow::Field("vector", ValueKind::Vector, ZERO)],
        outputs: &[
            OutputRow::Field("x", ValueKind::Fixed),
            OutputRow::Field("y", ValueKind::Fixed),
            OutputRow::Field("z", ValueKind::Fixed),
        ],
        open: false,
    },
    // A random value from `min` to `max`, or true with `probability`, which depends on `id` and
    // `seed` alone.
    Row {
        kind: "random_value",
        settings: &[SettingForm::Type(VALUE_KINDS)],
        inputs: &[
            InputRow::Chosen("min", ZERO),
            InputRow::Chosen("max", ONE),
            InputRow::Field("probability", ValueKind::Fixed, HALF),
            InputRow::Field("id", ValueKind::Int, DefaultValue::Id),
            InputRow::Field("seed", ValueKind::Int, ZERO),
        ],
        outputs: &[CHOSEN],
        open: false,
    },
    // Gives `true` where the condition holds and `false` elsewhere; for geometry the condition is
    // a single value.
    Row {
        kind: "switch",
        settings: &[SettingForm::Type(ANY_KIND)],
        inputs: &[
            InputRow::Field("switch", ValueKind::Truth, ZERO),
            InputRow::Chosen("false", ZERO),
            InputRow::Chosen("true", ZERO),
        ],
        outputs: &[OutputRow::Chosen("output")],
        open: false,
    },
];

/// Kinds of fields that look elsewhere.
static ELSEWHERE: [Row; 5] = [
    // Sums of the values of equal `group` on a place: up to and with each element, up to and
    // without it, and over all.
    Row {
        kind: "accumulate_field",
        settings: &[
            SettingForm::Type(&[SocketKind::Int, SocketKind::Fixed, SocketKind::Vector]),
            SettingForm::Place(ANY_PLACE),
        ],
        inputs: &[
            InputRow::Chosen("value", ONE),
            InputRow::Field("group", ValueKind::Int, ZERO),
        ],
        outputs: &[
            OutputRow::Chosen("leading"),
            OutputRow::Chosen("trailing"),
            OutputRow::Chosen("total"),
        ],
        open: false,
    },
    // The value that the field has on a place at the element with that index; 0 where there is no
    // such element.
    Row {
        kind: "evaluate_at_index",
        settings: &[
            SettingForm::Type(VALUE_KINDS),
            SettingForm::Place(ANY_PLACE),
        ],
        inputs: &[VALUE, INDEX],
        outputs: &[CHOSEN],
        open: false,
    },
    // The values that the field has on a place, interpolated to the place where they are read.
    Row {
        kind: "evaluate_on_domain",
        settings: &[
            SettingForm::Type(VALUE_KINDS),
            SettingForm::Place(ANY_PLACE),
        ],
        inputs: &[VALUE],
        outputs: &[CHOSEN],
        open: false,
    },
    // The value that the field has on a place of another geometry at the element with that index.
    Row {
        kind: "sample_index",
        settings: &[
            SettingForm::Type(VALUE_KINDS),
            SettingForm::Place(ANY_PLACE),
            SettingForm::Clamp,
        ],
        inputs: &[GEOMETRY, VALUE, INDEX],
        outputs: &[CHOSEN],
        open: false,
    },
    // The index of the nearest element on a place of another geometry, the least one among equally
    // near ones.
    Row {
        kind: "sample_nearest",
        settings: &[SettingForm::Place(ANY_PLACE)],
        inputs: &[GEOMETRY, POSITION],
        outputs: &[OutputRow::Field("index", ValueKind::Int)],
        open: false,
    },
];

/// Kinds of attributes.
static ATTRIBUTES: [Row; 7] = [
    // Evaluates the field on a place of the geometry, and gives it as an attribute that stays with
    // the elements.
    Row {
        kind: "capture_attribute",
        settings: &[
            SettingForm::Type(VALUE_KINDS),
            SettingForm::Place(ANY_PLACE),
        ],
        inputs: &[GEOMETRY, VALUE],
        outputs: &[NEW_GEOMETRY, OutputRow::Chosen("attribute")],
        open: false,
    },
    // Writes the values of the field to the column of that name, where the selection holds.
    Row {
        kind: "store_named_attribute",
        settings: &[
            SettingForm::Name,
            SettingForm::Type(VALUE_KINDS),
            SettingForm::Place(ANY_PLACE),
        ],
        inputs: &[GEOMETRY, SELECTION, VALUE],
        outputs: &[NEW_GEOMETRY],
        open: false,
    },
    // Removes the column of that name.
    Row {
        kind: "remove_named_attribute",
        settings: &[SettingForm::Name],
        inputs: &[GEOMETRY],
        outputs: &[NEW_GEOMETRY],
        open: false,
    },
    // Mean, sum, least, greatest and range of the field's values on a place, over the selected
    // elements.
    Row {
        kind: "attribute_statistic",
        settings: &[SettingForm::Place(ANY_PLACE)],
        inputs: &[
            GEOMETRY,
            SELECTION,
            InputRow::Field("attribute", ValueKind::Fixed, ZERO),
        ],
        outputs: &[
            OutputRow::Field("mean", ValueKind::Fixed),
            OutputRow::Field("sum", ValueKind::Fixed),
            OutputRow::Field("min", ValueKind::Fixed),
            OutputRow::Field("max", ValueKind::Fixed),
            OutputRow::Field("range", ValueKind::Fixed),
        ],
        open: false,
    },
    // The number of elements on each place.
    Row {
        kind: "domain_size",
        settings: &[],
        inputs: &[GEOMETRY],
        outputs: &[
            OutputRow::Field("points", ValueKind::Int),
            OutputRow::Field("edges", ValueKind::Int),
            OutputRow::Field("faces", ValueKind::Int),
            OutputRow::Field("corners", ValueKind::Int),
            OutputRow::Field("cloud", ValueKind::Int),
            OutputRow::Field("instances", ValueKind::Int),
        ],
        open: false,
    },
    // Moves the selected vertices, points and instances to `position`, and then by `offset`.
    Row {
        kind: "set_position",
        settings: &[],
        inputs: &[
            GEOMETRY,
            SELECTION,
            POSITION,
            InputRow::Field("offset", ValueKind::Vector, ZERO),
        ],
        outputs: &[NEW_GEOMETRY],
        open: false,
    },
    // Writes the column `id` of vertices and points, where the selection holds.
    Row {
        kind: "set_id",
        settings: &[],
        inputs: &[
            GEOMETRY,
            SELECTION,
            InputRow::Field("id", ValueKind::Int, DefaultValue::Index),
        ],
        outputs: &[NEW_GEOMETRY],
        open: false,
    },
];

/// Kinds of geometry.
static GEOMETRY_KINDS: [Row; 16] = [
    // Joins geometries into one, their elements in the order of the links.
    Row {
        kind: "join_geometry",
        settings: &[],
        inputs: &[GEOMETRIES],
        outputs: &[NEW_GEOMETRY],
        open: false,
    },
    // Moves all points and instances by the matrix with these rows, and then by `translation`.
    Row {
        kind: "transform_geometry",
        settings: &[],
        inputs: &[
            GEOMETRY,
            InputRow::Single("translation", ValueKind::Vector, ZERO),
            InputRow::Single("row_x", ValueKind::Vector, X_AXIS),
            InputRow::Single("row_y", ValueKind::Vector, Y_AXIS),
            InputRow::Single("row_z", ValueKind::Vector, Z_AXIS),
        ],
        outputs: &[NEW_GEOMETRY],
        open: false,
    },
    // Deletes the selected elements of a place, and what can't be without them.
    Row {
        kind: "delete_geometry",
        settings: &[SettingForm::Place(ANY_BUT_CORNER)],
        inputs: &[GEOMETRY, SELECTION],
        outputs: &[NEW_GEOMETRY],
        open: false,
    },
    // Gives the selected elements of a place, and the others.
    Row {
        kind: "separate_geometry",
        settings: &[SettingForm::Place(ANY_BUT_CORNER)],
        inputs: &[GEOMETRY, SELECTION],
        outputs: &[
            OutputRow::Geometry("selection"),
            OutputRow::Geometry("inverted"),
        ],
        open: false,
    },
    // Gives the mesh, the cloud and the instances each alone.
    Row {
        kind: "separate_components",
        settings: &[],
        inputs: &[GEOMETRY],
        outputs: &[
            OutputRow::Geometry("mesh"),
            OutputRow::Geometry("cloud"),
            OutputRow::Geometry("instances"),
        ],
        open: false,
    },
    // The least cuboid along the axes around all points, and its two extreme corners.
    Row {
        kind: "bounding_box",
        settings: &[],
        inputs: &[GEOMETRY],
        outputs: &[
            NEW_GEOMETRY,
            OutputRow::Field("min", ValueKind::Vector),
            OutputRow::Field("max", ValueKind::Vector),
        ],
        open: false,
    },
    // Turns the selected faces around, each from its first vertex on.
    Row {
        kind: "flip_faces",
        settings: &[],
        inputs: &[GEOMETRY, SELECTION],
        outputs: &[NEW_GEOMETRY],
        open: false,
    },
    // Makes a cloud with a point for each selected element of a place of the mesh.
    Row {
        kind: "mesh_to_points",
        settings: &[SettingForm::Place(MESH_PLACES)],
        inputs: &[GEOMETRY, SELECTION, POSITION],
        outputs: &[NEW_GEOMETRY],
        open: false,
    },
    // Makes a mesh with a vertex for each selected point of the cloud.
    Row {
        kind: "points_to_vertices",
        settings: &[],
        inputs: &[GEOMETRY, SELECTION],
        outputs: &[NEW_GEOMETRY],
        open: false,
    },
    // Repeats each selected point of the cloud `amount` times, and gives the number of each copy.
    Row {
        kind: "duplicate_elements",
        settings: &[],
        inputs: &[
            GEOMETRY,
            SELECTION,
            InputRow::Field("amount", ValueKind::Int, ONE),
        ],
        outputs: &[
            NEW_GEOMETRY,
            OutputRow::Field("duplicate_index", ValueKind::Int),
        ],
        open: false,
    },
    // A line of `count` vertices with edges between neighbours.
    Row {
        kind: "mesh_line",
        settings: &[],
        inputs: &[
            InputRow::Single("count", ValueKind::Int, TEN),
            InputRow::Single("start", ValueKind::Vector, ZERO),
            InputRow::Single("offset", ValueKind::Vector, Z_AXIS),
        ],
        outputs: &[NEW_GEOMETRY],
        open: false,
    },
    // A flat grid of faces around the origin, of that size and with that number of vertices along
    // each side.
    Row {
        kind: "grid",
        settings: &[],
        inputs: &[
            InputRow::Single("size_x", ValueKind::Fixed, ONE),
            InputRow::Single("size_y", ValueKind::Fixed, ONE),
            InputRow::Single("vertices_x", ValueKind::Int, THREE),
            InputRow::Single("vertices_y", ValueKind::Int, THREE),
        ],
        outputs: &[NEW_GEOMETRY],
        open: false,
    },
    // A cuboid around the origin, of that size.
    Row {
        kind: "cube",
        settings: &[],
        inputs: &[InputRow::Single("size", ValueKind::Vector, ONE)],
        outputs: &[NEW_GEOMETRY],
        open: false,
    },
    // A cloud of `count` points at the positions that the field gives.
    Row {
        kind: "points",
        settings: &[],
        inputs: &[
            InputRow::Single("count", ValueKind::Int, ONE),
            InputRow::Field("position", ValueKind::Vector, ZERO),
        ],
        outputs: &[NEW_GEOMETRY],
        open: false,
    },
    // The mesh of an OBJ file.
    Row {
        kind: "import_obj",
        settings: &[SettingForm::File],
        inputs: &[],
        outputs: &[NEW_GEOMETRY],
        open: false,
    },
    // Runs its body `iterations` times, and hands the items from each turn to the next.
    Row {
        kind: "repeat",
        settings: &[SettingForm::Items, SettingForm::Nodes, SettingForm::Output],
        inputs: &[InputRow::Single("iterations", ValueKind::Int, ONE)],
        outputs: &[],
        open: true,
    },
];

/// Kinds of instances.
static INSTANCES: [Row; 6] = [
    // Makes an instance of each geometry that is linked.
    Row {
        kind: "geometry_to_instance",
        settings: &[],
        inputs: &[GEOMETRIES],
        outputs: &[NEW_GEOMETRY],
        open: false,
    },
    // Puts an instance of the geometry on each selected point.
    Row {
        kind: "instance_on_points",
        settings: &[],
        inputs: &[
            InputRow::Geometry("points"),
            SELECTION,
            InputRow::Geometry("instance"),
            InputRow::Field("scale", ValueKind::Vector, ONE),
        ],
        outputs: &[NEW_GEOMETRY],
        open: false,
    },
    // Puts the geometry of each instance in its place.
    Row {
        kind: "realize_instances",
        settings: &[],
        inputs: &[GEOMETRY],
        outputs: &[NEW_GEOMETRY],
        open: false,
    },
    // Moves the selected instances.
    Row {
        kind: "translate_instances",
        settings: &[],
        inputs: &[
            GEOMETRY,
            SELECTION,
            InputRow::Field("translation", ValueKind::Vector, ZERO),
        ],
        outputs: &[NEW_GEOMETRY],
        open: false,
    },
    // Scales the selected instances.
    Row {
        kind: "scale_instances",
        settings: &[],
        inputs: &[
            GEOMETRY,
            SELECTION,
            InputRow::Field("scale", ValueKind::Vector, ONE),
        ],
        outputs: &[NEW_GEOMETRY],
        open: false,
    },
    // Makes a cloud with a point for each selected instance.
    Row {
        kind: "instances_to_points",
        settings: &[],
        inputs: &[GEOMETRY, SELECTION, POSITION],
        outputs: &[NEW_GEOMETRY],
        open: false,
    },
];

/// Kinds of groups, which a tree is freed of before it is run.
static GROUPS: [Row; 1] = [
    // Stands for the nodes of the group with that name.
    Row {
        kind: "group",
        settings: &[SettingForm::Group],
        inputs: &[],
        outputs: &[],
        open: true,
    },
];

#[tactic(auto, unfolding(crate::specs::Table::values))]
fn values_rows() -> &'static [Row]
    ensures { map row_of result.now ≡ values }
{
    &VALUES
}

#[tactic(auto, unfolding(crate::specs::Table::functions))]
fn functions_rows() -> &'static [Row]
    ensures { map row_of result.now ≡ functions }
{
    &FUNCTIONS
}

#[tactic(auto, unfolding(crate::specs::Table::elsewhere))]
fn elsewhere_rows() -> &'static [Row]
    ensures { map row_of result.now ≡ elsewhere }
{
    &ELSEWHERE
}

#[tactic(auto, unfolding(crate::specs::Table::attributes))]
fn attributes_rows() -> &'static [Row]
    ensures { map row_of result.now ≡ attributes }
{
    &ATTRIBUTES
}

#[tactic(auto, unfolding(crate::specs::Table::geometry_kinds))]
fn geometry_kinds_rows() -> &'static [Row]
    ensures { map row_of result.now ≡ geometry_kinds }
{
    &GEOMETRY_KINDS
}

#[tactic(auto, unfolding(crate::specs::Table::instance_kinds))]
fn instance_kinds_rows() -> &'static [Row]
    ensures { map row_of result.now ≡ instance_kinds }
{
    &INSTANCES
}

#[tactic(auto, unfolding(crate::specs::Table::groups))]
fn groups_rows() -> &'static [Row]
    ensures { map row_of result.now ≡ groups }
{
    &GROUPS
}

/// The rows of all kinds, in sections.
#[tactic(auto, unfolding(crate::specs::Table::table))]
pub fn sections() -> [&'static [Row]; 7]
    ensures { map (λ rows. map row_of rows.now) result ≡ table }
{
    [
        values_rows(),
        functions_rows(),
        elsewhere_rows(),
        attributes_rows(),
        geometry_kinds_rows(),
        instance_kinds_rows(),
        groups_rows(),
    ]
}
