// The shapes of a line.
ghost use Rattle.std.specs.Prelude.{Err};
ghost use Rattle.bp_value.specs.declared.shape.Shape.{Shape};
ghost use Rattle.bp_text.specs.TextAnswers.{RefusesFront};
ghost use Rattle.rpc_schema.specs.LineAnswers.{TakesOne};
ghost use Rattle.rpc_schema.specs.SchemaLines.{AreItems, AreShapes, IsShapePart, IsStateRest, ItemsRefused, Marked, MarkedRefused, ShapeRefused, ShapesRefused, StateRestRefused};
ghost use Rattle.rpc_schema.specs.declared.desc.Kind.TheVariants.{Plain, OneWay, Pipe, State};

use crate::desc::Kind;
use crate::line::Line;
use crate::stop::Stop;
use bp_text::{TextError, read_shape_front};
use bp_value::Shape;
use std::alloc::Global;

/// The shapes of a procedure, as `RpcDesc` has them.
#[derive(Debug, Drop)]
pub struct Shapes {
    pub query: Shape,
    pub first: Shape,
    pub item: Shape,
    pub error: Shape,
}

/// Takes the shapes of a procedure of this kind.
pub fn take_shapes(line: &mut Line, kind: Kind, alloc: Global) -> Result<Shapes, Stop>
    ensures { TakesOne (AreShapes kind) (ShapesRefused kind) line.old line.new result }
{
    match kind {
        Kind::Plain => plain_shapes(line, alloc),
        Kind::OneWay => one_way_shapes(line, alloc),
        Kind::Pipe => pipe_shapes(line, alloc),
        Kind::State => state_shapes(line, alloc),
    }
}

// `QUERY -> ANSWER`
fn plain_shapes(line: &mut Line, alloc: Global) -> Result<Shapes, Stop>
    ensures { TakesOne (AreShapes Plain) (ShapesRefused Plain) line.old line.new result }
{
    let query = shape(line, alloc)?;
    let first = marked(line, b"->", alloc)?;
    Ok(Shapes {
        query,
        first,
        item: Shape::Unit,
        error: Shape::Unit,
    })
}

// `QUERY`
fn one_way_shapes(line: &mut Line, alloc: Global) -> Result<Shapes, Stop>
    ensures { TakesOne (AreShapes OneWay) (ShapesRefused OneWay) line.old line.new result }
{
    let query = shape(line, alloc)?;
    Ok(Shapes {
        query,
        first: Shape::Unit,
        item: Shape::Unit,
        error: Shape::Unit,
    })
}

// `QUERY -> ITEM ! ERROR`
fn pipe_shapes(line: &mut Line, alloc: Global) -> Result<Shapes, Stop>
    ensures { TakesOne (AreShapes Pipe) (ShapesRefused Pipe) line.old line.new result }
{
    let query = shape(line, alloc)?;
    items(line, b"->", query, Shape::Unit, alloc)
}

// `QUERY -> STATE , ITEM ! ERROR`
fn state_shapes(line: &mut Line, alloc: Global) -> Result<Shapes, Stop>
    ensures { TakesOne (AreShapes State) (ShapesRefused State) line.old line.new result }
{
    let query = shape(line, alloc)?;
    state_rest(line, query, alloc)
}

// `-> STATE , ITEM ! ERROR`
fn state_rest(line: &mut Line, query: Shape, alloc: Global) -> Result<Shapes, Stop>
    ensures { TakesOne (IsStateRest query) StateRestRefused line.old line.new result }
{
    let first = marked(line, b"->", alloc)?;
    items(line, b",", query, first, alloc)
}

// A mark, and `ITEM ! ERROR`.
fn items(
    line: &mut Line,
    mark: &[u8],
    query: Shape,
    first: Shape,
    alloc: Global,
) -> Result<Shapes, Stop>
    ensures { TakesOne (AreItems mark.now query first) (ItemsRefused mark.now)
        line.old line.new result }
{
    let item = marked(line, mark, alloc)?;
    let error = marked(line, b"!", alloc)?;
    Ok(Shapes {
        query,
        first,
        item,
        error,
    })
}

// A mark, and a shape after it.
fn marked(line: &mut Line, mark: &[u8], alloc: Global) -> Result<Shape, Stop>
    ensures { TakesOne (Marked mark.now) (MarkedRefused mark.now) line.old line.new result }
{
    line.take_mark(mark)?;
    shape(line, alloc)
}

// A good shape, as many tokens long as begin some shape.
fn shape(line: &mut Line, alloc: Global) -> Result<Shape, Stop>
    ensures { TakesOne IsShapePart ShapeRefused line.old line.new result }
{
    match read_shape_front(alloc, line.rest(), 0) {
        Ok((shape, end)) => {
            line.skip(end);
            Ok(shape)
        }
        Err(error) => Err(refused(line, error)),
    }
}

// The line is refused where the shape in front of it is.
fn refused(line: &mut Line, error: TextError) -> Stop
    requires { RefusesFront line.old 0 error }
    ensures { TakesOne {A = Shape} IsShapePart ShapeRefused line.old line.new (Err result) }
{
    match error {
        TextError::BadText { at } | TextError::Float { at } => {
            line.skip(at);
            Stop::Refused
        }
        TextError::NotGood(_) => {
            line.skip_blanks();
            Stop::Refused
        }
        TextError::OutOfMemory => Stop::OutOfMemory,
    }
}
