//! What the course has of a whole world.
ghost use Rattle.qs_world_course.specs.Worlds.{OpensOnCourse};

/// As a run begins with its script, the course of its journal has what the world has of clients, nodes and messages.
pub fn openings_are_on_course()
    ensures { OpensOnCourse }
{}
