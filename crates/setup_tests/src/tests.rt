mod camera;
mod near_plane;
mod set_up;
