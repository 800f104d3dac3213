//! Which paths are served over a connection: `Reach`.

/// Which of the paths of clients, operators and other regions are served over a connection.
#[derive(Clone, Copy)]
pub enum PathSet {
    /// The paths of clients alone: `/authorize`, `/token`, `/introspect` and `/revoke`.
    Clients,
    /// The paths of clients, and those of operators below `/admin/`.
    Admin,
    /// All paths: those of clients, those of operators, and those below `/sync/`, over which
    /// regions exchange facts.
    All,
}

/// The paths that are served over a connection.
///
/// A path that isn't reached is unknown: its reply is that to any unknown path, 404 `not_found`.
#[derive(Clone, Copy)]
pub struct Reach {
    /// The paths of clients, operators and other regions that are served.
    pub paths: PathSet,
    /// Whether the server's metadata are, at `/.well-known/oauth-authorization-server` (RFC 8414,
    /// 3).
    pub discovery: bool,
    /// Whether the server's health is, at `/health` (own).
    pub health: bool,
    /// Whether the server's metrics are, at `/metrics`, if the paths of operators are (own).
    pub metrics: bool,
}

ghost use Rattle.std.specs.Prelude.{◌≡◌};
ghost use Rattle.tk_edge.specs.Paths.{plain};

impl Reach {
    /// Returns the reach of these paths, without metadata, health and metrics.
    pub fn plain(paths: PathSet) -> Reach
        ensures { result ≡ plain paths }
    {
        Reach {
            paths,
            discovery: false,
            health: false,
            metrics: false,
        }
    }
}
