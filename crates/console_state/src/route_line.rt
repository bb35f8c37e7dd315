// A line that has to do with a route, and what the route is judged under.
use command::Line;
use session::Sessions;

// The line, the session of each form, and the head end's addresses.
#[derive(Clone, Copy)]
pub struct RouteLine<'a> {
    pub line: Line<'a>,
    pub sessions: Sessions,
    pub addresses: &'a [u8],
}
