//! An embedded planar st-graph, which keeps that it is one.
ghost use Rattle.std.specs.Prelude.{◌≡◌, ◌<◌};
ghost use Rattle.st_map.specs.Embedded.{darts};
ghost use Rattle.st_test.specs.FaceNumbers.{AreFaces, orbit_number};
ghost use Rattle.st_test.specs.Planar.{IsPlanarSt};

use crate::digraph_fault::Poles;
use crate::orbits::Faces;
use st_ids::{Dart, OrbitId, VertexId};
use st_map::Map;
use std::marker::Model;

/// An embedded planar st-graph with its faces. A contract sees the record `StValue`.
#[derive(Drop)]
pub struct StGraph {
    map: Map,
    faces: Faces,
    poles: Poles,
    outer: Dart,
}

impl Model for StGraph {
    ghost use Rattle.st_test.specs.FaceNumbers.{AreFaces};
    ghost use Rattle.st_test.specs.Planar.{IsPlanarSt, StValue};

    ghost Value = { StValue };

    ghost view = { λ a. record { map = a.map; source = a.poles.source.0; sink = a.poles.sink.0; outer = a.outer.0 } };

    ghost invariant = { λ a. IsPlanarSt a.map.graph a.poles.source.0 a.poles.sink.0 a.outer.0 × AreFaces a.map.graph a.faces };
}

impl StGraph {
    /// The graph of a map that was tested.
    pub(crate) fn of(map: Map, faces: Faces, poles: Poles, outer: Dart) -> StGraph
        requires planar { IsPlanarSt map.graph poles.source.0 poles.sink.0 outer.0 }
        requires faces { AreFaces map.graph faces }
        ensures { result ≡ record { map = map; source = poles.source.0; sink = poles.sink.0; outer = outer.0 } }
    {
        StGraph {
            map,
            faces,
            poles,
            outer,
        }
    }

    /// The map of the graph.
    pub fn map(&self) -> &Map
        ensures value { result.now ≡ self.now.map }
        ensures planar { IsPlanarSt self.now.map.graph self.now.source self.now.sink self.now.outer }
    {
        &self.map
    }

    /// The faces of the graph.
    pub fn faces(&self) -> &Faces
        ensures { AreFaces self.now.map.graph result.now }
    {
        &self.faces
    }

    /// The one vertex without an edge in.
    pub fn source(&self) -> VertexId
        ensures value { result.0 ≡ self.now.source }
        ensures within { result.0 < self.now.map.graph.vertices }
    {
        self.poles.source
    }

    /// The one vertex without an edge out.
    pub fn sink(&self) -> VertexId
        ensures value { result.0 ≡ self.now.sink }
        ensures within { result.0 < self.now.map.graph.vertices }
    {
        self.poles.sink
    }

    /// The outer face.
    pub fn outer(&self) -> OrbitId
        ensures { result.0 ≡ orbit_number self.now.map.graph self.now.outer }
    {
        self.faces.orbit(self.outer)
    }

    /// The end that names the outer face: the one that was handed in, else the first in the order of the source.
    pub fn outer_end(&self) -> Dart
        ensures value { result.0 ≡ self.now.outer }
        ensures within { result.0 < darts self.now.map.graph }
    {
        self.outer
    }

    /// The map, given back.
    pub fn into_map(self) -> Map
        ensures { result ≡ self.map }
    {
        self.map
    }
}
