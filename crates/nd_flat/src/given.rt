// The request beside which a response is judged, for contracts alone.
ghost use Rattle.std.specs.Prelude.{◌≡◌, option_map};
ghost use Rattle.nd_value.specs.Request.{ConformsIfGiven};

use crate::{Fit, FlatGraph};
use nd_types::Witness;
use std::marker::Model;

/// The request beside which a response is judged, or none. It takes no memory: contracts alone see the graph of the request.
#[derive(Drop)]
pub struct Given {
    graph: Option<Witness<FlatGraph>>,
}

impl Model for Given {
    ghost use Rattle.std.specs.Prelude.{Option, option_map};
    ghost use Rattle.std.specs.Coded.{coded_option};
    ghost use Rattle.nd_value.specs.declared.value.Graph.{Graph};
    ghost use Rattle.nd_value.specs.Fitting.{graph_code};

    ghost Value = { Option Graph };

    ghost coded = { coded_option graph_code };

    ghost view = { λ g. option_map (λ s. s.value) g.graph };
}

impl Given {
    /// The graph of the fit that is given, if one is. `Fit::of` asks that it is a request. Takes no memory.
    pub fn beside(request: Option<&Fit>) -> Given
        ensures graph { result ≡ option_map (λ f. f.now.graph) request.entry }
        ensures conforms { ConformsIfGiven (option_map (λ f. f.now) request.entry) }
    {
        match request {
            None => Given { graph: None },
            Some(fit) => Given {
                graph: Some(Witness::of(fit.flat())),
            },
        }
    }

    /// The same request. Takes no memory.
    pub fn again(&self) -> Given
        ensures { result ≡ self.now }
    {
        match &self.graph {
            None => Given { graph: None },
            Some(graph) => Given {
                graph: Some(graph.again()),
            },
        }
    }
}
