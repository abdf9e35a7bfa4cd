ghost use Rattle.std.specs.Prelude.{◌≡◌, ◌≤◌, ◌+◌, ◌^◌, IfOk, map, true};
ghost use Rattle.gn_geom.specs.Geometries.{plain_geometry};
ghost use Rattle.gn_geom.specs.Meshes.{plain_of};
ghost use Rattle.gn_plans.specs.Answers.{plan_of};
ghost use Rattle.gn_plan_laws.specs.Made.{made as plain_made, runs_of};
ghost use Rattle.gn_rows.specs.Moves as spec;

use crate::load::Prepared;
use gn_geom::{Geometry, Mesh};
use gn_memory::Memory;
use gn_plans::Plan;
use gn_shared::Meter;
use gn_value::V3;
use std::alloc::Global;

/// Where a point goes: to the position, or from its own if no position is given, and by the offset.
fn moved_point(point: V3, to: Option<V3>, by: V3) -> V3
    ensures { result ≡ spec.moved_point true to by point }
{
    match to {
        Some(position) => position.add(by),
        None => point.add(by),
    }
}

/// Moves each point.
fn move_points(points: &mut [V3], to: Option<V3>, by: V3)
    ensures { points.new ≡ map (spec.moved_point true to by) points.old }
{
    for point in points.iter_mut() {
        *point = moved_point(*point, to, by);
    }
}

/// The mesh with its points moved.
fn moved_mesh(alloc: Global, mut mesh: Mesh, to: Option<V3>, by: V3) -> Result<Mesh, Memory>
    ensures { IfOk result (λ m. plain_of m ≡ spec.moved_shape true to by (plain_of mesh)) }
{
    let mut points = mesh.points().to_vec(alloc)?;
    move_points(&mut points, to, by);
    mesh.set_points(points)?;
    Ok(mesh)
}

/// Notes the run of the node that moves, where the plan has one.
pub(crate) fn note_runs<L>(meter: &mut Meter<L>, plan: Plan)
    requires { meter.old.runs ≤ 2 ^ 62 }
    ensures runs { meter.new.runs ≡ meter.old.runs + runs_of (plan_of plan) }
    ensures copies { meter.new.copies ≡ meter.old.copies }
{
    match plan {
        Plan::Move { .. } => meter.note_run(),
        Plan::Empty => {}
        Plan::Input => {}
    }
}

/// What the plan makes of the mesh of the input.
pub(crate) fn made(alloc: Global, prepared: Prepared) -> Result<Geometry, Memory>
    ensures { IfOk result (λ g. plain_geometry g ≡ plain_made (plan_of prepared.plan) (plain_of prepared.mesh)) }
{
    let Prepared { mesh, plan } = prepared;
    match plan {
        Plan::Empty => Geometry::empty(alloc),
        Plan::Input => Ok(Geometry { mesh }),
        Plan::Move {
            selected: false,
            ..
        } => Ok(Geometry { mesh }),
        Plan::Move {
            selected: true,
            to,
            by,
        } => {
            let mesh = moved_mesh(alloc, mesh, to, by)?;
            Ok(Geometry { mesh })
        }
    }
}
