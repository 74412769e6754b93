// Writing for each carrier what its route is asked.
ghost use Rattle.std.specs.Prelude.{ℕ, ◌<◌, ◌≤◌, length, slice_index_or};
ghost use Rattle.std.specs.Fn.{FnReturnsAt};
ghost use Rattle.course.specs.Routes.{route_at};

use course::route::Route;

// Writes what each route is asked at its carrier's place.
pub(super) fn write_each<T: Copy, F: Fn(&Route) -> T>(routes: &[Route], out: &mut [T], ask: F)
    requires callable { F.IsAlwaysCallable ask }
    requires room { length routes.now ≤ length out.old }
    ensures { (carrier : ℕ) (default : T) → carrier < length routes.now → FnReturnsAt F.Fn ask (route_at routes.now carrier) (slice_index_or out.new carrier default) }
{
    // Kept as it is: over `out.iter_mut().zip(routes)` the ensures stays open, since no invariant can name what is written.
    for (carrier, route) in routes.iter().enumerate() {
        out[carrier] = ask(route);
    }
}
