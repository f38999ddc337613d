//! Laws of obstacles, each as a function with no body that a proof may cite by a call.
ghost use Rattle.sem_lint.specs.Laws.{ObstaclesKill};

/// No filling of a format with an obstacle fits, whatever the context.
pub fn obstacles_kill()
    ensures { ObstaclesKill }
{}
